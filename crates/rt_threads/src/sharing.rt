ghost use Rattle.std.specs.Prelude.{◌≡◌, ◌≤◌};
ghost use Rattle.rt_model.specs.Setup.{IsSetup};
ghost use Rattle.rt_store.specs.Contents.{starting_of};

use crate::boots::booted;
use crate::rows::{creates, ends, once, versions};
use crate::sharer::Sharer;
use rt_ground::{Blanks, Caller, Ground, Naming};
use rt_model::Setup;
use std::alloc::{AllocError, Global};
use std::sync::Wait;
use std::thread::{Threads, for_each_mut};

/// What one caller is answered in all rows, one after the other.
pub fn alone<R: Wait + Copy, J: Naming>(
    rt: R,
    alloc: Global,
    blanks: Blanks,
    setup: &Setup,
) -> Result<Vec<String>, AllocError>
    requires names { (blanks ≡ J.names) × (starting_of setup.now ≡ J.starting) }
    requires setup { IsSetup setup.now }
    requires callers { J.callers ≡ 1 }
{
    let mut callers = callers::<R, J>(rt, alloc, blanks, setup, 1)?;
    match callers.as_mut_slice().first_mut() {
        Some(caller) => all_rows(alloc, caller),
        None => Err(AllocError),
    }
}

/// What three callers of one ground are answered, each of them in a row and a thread of its own.
pub fn apart<R: Threads + Wait + Copy + Send + Sync, J: Naming + Send + Sync>(
    rt: R,
    alloc: Global,
    blanks: Blanks,
    setup: &Setup,
) -> Result<Vec<String>, AllocError>
    requires names { (blanks ≡ J.names) × (starting_of setup.now ≡ J.starting) }
    requires setup { IsSetup setup.now }
    requires callers { J.callers ≡ 3 }
{
    let callers = callers::<R, J>(rt, alloc, blanks, setup, 3)?;
    let mut sharers = sharers(alloc, callers)?;
    go(&rt, alloc, sharers.as_mut_slice());
    heard(alloc, sharers.as_slice())
}

/// The callers of a fresh ground.
fn callers<R: Wait + Copy, J: Naming>(
    rt: R,
    alloc: Global,
    blanks: Blanks,
    setup: &Setup,
    count: u32,
) -> Result<Vec<Caller<R, J>>, AllocError>
    requires names { (blanks ≡ J.names) × (starting_of setup.now ≡ J.starting) }
    requires setup { IsSetup setup.now }
    requires callers { count ≡ J.callers }
    requires some { 1 ≤ count }
{
    let (_ground, callers) = Ground::<R, J>::found(rt, alloc, blanks, setup, count)?;
    Ok(callers)
}

/// All rows by one caller.
fn all_rows<R: Wait + Copy, J: Naming>(
    alloc: Global,
    caller: &mut Caller<R, J>,
) -> Result<Vec<String>, AllocError> {
    let store = versions(alloc, &mut caller.store)?;
    let deep = once(alloc, &mut caller.deep)?;
    let stream = ends(alloc, &mut caller.stream)?;
    let boot = booted(alloc, &mut caller.store)?;
    let create = creates(alloc, &mut caller.store)?;
    Ok(vec![in alloc; store, deep, stream, boot, create]?)
}

/// Those who go through the rows.
fn sharers<R: Copy, J: Naming>(
    alloc: Global,
    callers: Vec<Caller<R, J>>,
) -> Result<Vec<Sharer<R, J>>, AllocError> {
    let mut sharers = Vec::new(alloc);
    for caller in callers {
        sharers.push(Sharer {
            caller,
            heard: String::new(alloc),
        })?;
    }
    Ok(sharers)
}

/// Each of them goes through its row in a thread of its own.
fn go<R: Threads + Wait + Copy + Send + Sync, J: Naming + Send + Sync>(
    rt: &R,
    alloc: Global,
    sharers: &mut [Sharer<R, J>],
) {
    for_each_mut(rt, sharers, 3, &|row, sharer| sharer.run(alloc, row));
}

/// What they were answered.
fn heard<R, J: Naming>(alloc: Global, sharers: &[Sharer<R, J>]) -> Result<Vec<String>, AllocError> {
    let mut heard = Vec::new(alloc);
    for sharer in sharers {
        heard.push(sharer.heard.clone()?)?;
    }
    Ok(heard)
}
