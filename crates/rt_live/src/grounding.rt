ghost use Rattle.std.specs.Prelude.{◌≡◌, IfOk, string_bytes};
ghost use Rattle.rt_live.specs.Run.{HasToldRun};
ghost use Rattle.rt_live_input.specs.Input.{IsInput};
ghost use Rattle.rt_live_names.specs.Fronts.{callers_of};
ghost use Rattle.rt_store.specs.Contents.{starting_of};

use crate::ran::Ran;
use crate::running::run;
use crate::written::Written;
use rt_base::{Clock, Gate};
use rt_ground::{Blanks, Naming};
use rt_live_input::Input;
use std::alloc::{AllocError, Global};
use std::marker::Brand;
use std::sync::Wait;
use std::thread::Threads;

/// Runs the nodes of a cluster over an input, on a ground of new names. Fails only where memory is refused.
pub(crate) fn live_input<R: Threads + Wait + Copy + Send + Sync, C: Clock + Sync, G: Gate + Sync>(
    rt: R,
    alloc: Global,
    journal: bool,
    input: Input,
    clock: &C,
    gate: &G,
) -> Result<Written, AllocError>
    requires { IsInput input }
    ensures { IfOk result (λ written. HasToldRun input journal written.ends.items (string_bytes written.text)) }
{
    let blanks = Blanks::new(alloc)?;
    run_to_text::<R, Brand, C, G>(rt, alloc, blanks, input, journal, clock, gate)
}

// Runs the nodes of a cluster over an input, and lets its caller go.
fn run_to_text<
    R: Threads + Wait + Copy + Send + Sync,
    J: Naming + Send + Sync,
    C: Clock + Sync,
    G: Gate + Sync,
>(
    rt: R,
    alloc: Global,
    blanks: Blanks,
    input: Input,
    journal: bool,
    clock: &C,
    gate: &G,
) -> Result<Written, AllocError>
    requires fits { IsInput input }
    requires ground { (blanks ≡ J.names) × (starting_of input.setup ≡ J.starting)
        × (J.callers ≡ callers_of input.setup) }
    ensures { IfOk result (λ written. HasToldRun input journal written.ends.items (string_bytes written.text)) }
{
    let Ran { ends, text, .. } = run::<R, J, C, G>(rt, alloc, blanks, input, journal, clock, gate)?;
    Ok(Written { ends, text })
}
