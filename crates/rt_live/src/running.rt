ghost use Rattle.std.specs.Prelude.{◌≡◌, IfOk, length, string_bytes};
ghost use Rattle.rt_live.specs.Run.{HasRun};
ghost use Rattle.rt_live_input.specs.Input.{IsInput};
ghost use Rattle.rt_live_join.specs.Left.{fronts_by};
ghost use Rattle.rt_live_names.specs.Fronts.{callers_of};
ghost use Rattle.rt_store.specs.Contents.{starting_of};

use crate::named::run_named;
use crate::ran::Ran;
use rt_base::{Clock, Gate};
use rt_broker::PieceGiven;
use rt_front::Blank;
use rt_ground::{Blanks, Naming};
use rt_link::never;
use rt_lists::Copied;
use rt_live_broker::lengths_of;
use rt_live_input::Input;
use rt_live_links::links;
use std::alloc::{AllocError, Global};
use std::marker::Brand;
use std::sync::Wait;
use std::thread::Threads;

/// How many envelopes an inbox holds.
const INBOX: u32 = 1_024;

/// Runs the nodes of a cluster by threads over an input, until all of it is committed and all queries are answered, and
/// meets their callers. The caller that is handed on has the numbers of all of them, so that it shows the whole of each
/// history. It fails only where memory is refused; all nodes have ended then too.
pub fn run<
    R: Threads + Wait + Copy + Send + Sync,
    J: Naming + Send + Sync,
    C: Clock + Sync,
    G: Gate + Sync,
>(
    rt: R,
    alloc: Global,
    blanks: Blanks,
    input: Input,
    journal: bool,
    clock: &C,
    gate: &G,
) -> Result<Ran<R, J>, AllocError>
    requires fits { IsInput input }
    requires ground { (blanks ≡ J.names) × (starting_of input.setup ≡ J.starting)
        × (J.callers ≡ callers_of input.setup) }
    ensures { IfOk result (λ ran. HasRun input journal ran.ends.items (fronts_by ran.caller)
        (string_bytes ran.text)) }
{
    if input.rows.len() as u64 >= 1 << 63 {
        return never(&rt);
    }
    let setup = input.setup.copied(alloc)?;
    let lengths = lengths_of(alloc, setup.partitions, input.rows.as_slice())?;
    let links = links(alloc, INBOX, setup.servers, setup.controllers)?;
    let asked = blanks_for(alloc, setup.servers)?;
    run_named::<R, J, Brand, C, G>(
        rt,
        alloc,
        blanks,
        asked,
        links,
        input,
        &setup,
        lengths.as_slice(),
        journal,
        clock,
        gate,
    )
}

// A name for the history of what each server is asked.
fn blanks_for(alloc: Global, servers: u32) -> Result<Vec<Blank<PieceGiven>>, AllocError>
    ensures { IfOk result (λ blanks. length blanks.items ≡ servers) }
{
    let mut blanks = Vec::new(alloc);
    for _server in 0..servers {
        blanks.push(Blank::new(alloc)?)?;
    }
    Ok(blanks)
}
