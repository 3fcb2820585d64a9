//! What a controller does for a partition on its own: the repair, and the retiring of old segments.
ghost use Rattle.rt_state.specs.Repairs.{chore_due, Keeps};
ghost use Rattle.rt_state.specs.Applying.{Applies};
ghost use Rattle.rt_state.specs.IsSafeWorld.{IsSafeWorld};

use rt_base::{ControllerId, Partition};
use rt_events::{Outcome, Refusal};
use rt_nodes::Chore;
use rt_state::State;
use std::alloc::Global;

/// A controller makes the next step of a chore of a partition, which begins with its first one.
#[tactic(auto, using(rt_state::proofs::NeedsNodes::chore_needs, rt_state::proofs::Leading::node_kept))]
pub(crate) fn keep(
    state: &mut State,
    alloc: Global,
    controller: ControllerId,
    partition: Partition,
    chore: Chore,
) -> Result<Outcome, Refusal>
    requires { IsSafeWorld state.old }
    ensures { Applies state.old (chore_due state.old controller partition chore) (Keeps state.old controller partition chore) state.new result }
{
    let cost = state.chore_due(controller, partition, chore)?;
    let before = state.store.history().len();
    let node = state.controllers.at_mut(controller.0 as usize);
    let outcome = node.keep(
        alloc,
        chore,
        partition,
        &state.setup,
        state.moment,
        &mut state.store,
    )?;
    state
        .counts
        .note_set(cost, before, state.store.history().len());
    state.counts.spend(cost);
    Ok(outcome)
}
