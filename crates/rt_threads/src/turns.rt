ghost use Rattle.std.specs.Prelude.{◌≡◌};
ghost use Rattle.rt_model.specs.Setup.{IsSetup};
ghost use Rattle.rt_store.specs.Contents.{starting_of};

use crate::taker::Taker;
use crate::told::Told;
use rt_ground::{Blanks, Caller, Ground, Naming};
use rt_model::Setup;
use std::alloc::{AllocError, Global};
use std::sync::Wait;
use std::sync::atomic::AtomicU64;
use std::thread::{Threads, for_each_mut};

/// What two callers that write in turn and one that reads have written and read, once they have met.
pub fn in_turn<R: Threads + Wait + Copy + Send + Sync, J: Naming + Send + Sync>(
    rt: R,
    alloc: Global,
    blanks: Blanks,
    setup: &Setup,
) -> Result<String, AllocError>
    requires names { (blanks ≡ J.names) × (starting_of setup.now ≡ J.starting) }
    requires setup { IsSetup setup.now }
    requires callers { J.callers ≡ 3 }
{
    let (ground, callers) = Ground::<R, J>::found(rt, alloc, blanks, setup, 3)?;
    let mut takers = takers(alloc, callers)?;
    go(&rt, alloc, takers.as_mut_slice());
    ended(alloc, &ground, takers)
}

/// Those who write and read.
fn takers<R: Copy, J: Naming>(
    alloc: Global,
    callers: Vec<Caller<R, J>>,
) -> Result<Vec<Taker<R, J>>, AllocError> {
    let mut takers = Vec::new(alloc);
    for caller in callers {
        takers.push(Taker {
            caller,
            wrote: 0,
            told: Told::nothing(),
        })?;
    }
    Ok(takers)
}

/// Each of them does its part in a thread of its own.
fn go<R: Threads + Wait + Copy + Send + Sync, J: Naming + Send + Sync>(
    rt: &R,
    alloc: Global,
    takers: &mut [Taker<R, J>],
) {
    let turn = AtomicU64::new(0);
    for_each_mut(
        rt,
        takers,
        3,
        &|number, taker| taker.run(rt, alloc, number, &turn),
    );
}

/// What they have written and read.
fn ended<R: Wait + Copy, J: Naming>(
    alloc: Global,
    ground: &Ground<R, J>,
    takers: Vec<Taker<R, J>>,
) -> Result<String, AllocError> {
    let wrote = wrote_by(takers.as_slice());
    let told = told_of(takers.as_slice());
    match met_all(takers) {
        Some(mut met) => line(alloc, ground, &mut met, wrote, told),
        None => Err(AllocError),
    }
}

/// How many turns' writes were carried out.
fn wrote_by<R, J: Naming>(takers: &[Taker<R, J>]) -> u64 {
    let mut wrote = 0u64;
    for taker in takers {
        wrote = wrote.saturating_add(taker.wrote);
    }
    wrote
}

/// What the last of them has read.
fn told_of<R, J: Naming>(takers: &[Taker<R, J>]) -> Told {
    match takers.last() {
        Some(taker) => taker.told,
        None => Told::nothing(),
    }
}

/// The last caller, who has met all others.
fn met_all<R: Copy, J: Naming>(takers: Vec<Taker<R, J>>) -> Option<Caller<R, J>> {
    let mut takers = takers;
    let Taker {
        caller: mut met,
        ..
    } = takers.pop()?;
    for taker in takers {
        met.meet(taker.caller);
    }
    Some(met)
}

fn line<R: Wait + Copy, J: Naming>(
    alloc: Global,
    ground: &Ground<R, J>,
    met: &mut Caller<R, J>,
    wrote: u64,
    told: Told,
) -> Result<String, AllocError> {
    let writes = ground.history(alloc, met)?.len();
    let number = met.store.front().number();
    let seen = met.store.front().told();
    format!(in alloc;
        "wrote {wrote} times, read version {}, {} files and {} messages, {} times backwards; caller {number} has seen {seen} of {writes} writes",
        told.version, told.files, told.messages, told.backwards
    )
}
