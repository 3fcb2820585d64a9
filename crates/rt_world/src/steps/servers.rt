//! A server sees the ideal state, moves its segments, and loads files.
ghost use Rattle.rt_state.specs.Servers.{see_due, transit_due, download_due, Sees, Moves, Loads};
ghost use Rattle.rt_state.specs.Applying.{Applies};
ghost use Rattle.rt_state.specs.IsSafeWorld.{IsSafeWorld};

use rt_base::{Instance, Partition, Sequence};
use rt_events::{Outcome, Refusal};
use rt_state::State;
use std::alloc::Global;

/// A server reads the ideal state.
#[tactic(auto, using(rt_state::proofs::NeedsServers::see_needs, rt_state::proofs::Going::server_calls))]
pub(crate) fn see(state: &mut State, alloc: Global, instance: Instance) -> Result<Outcome, Refusal>
    requires { IsSafeWorld state.old }
    ensures { Applies state.old (see_due state.old instance) (Sees state.old instance) state.new result }
{
    let cost = state.see_due(instance)?;
    let node = state.servers.at_mut(instance.0 as usize);
    let outcome = node.see(alloc, &mut state.store)?;
    state.counts.spend(cost);
    Ok(outcome)
}

/// A server moves a segment to what the ideal state asks.
#[tactic(auto, using(rt_state::proofs::NeedsServers::transit_needs, rt_state::proofs::Going::server_calls))]
pub(crate) fn transit(
    state: &mut State,
    alloc: Global,
    instance: Instance,
    partition: Partition,
    sequence: Sequence,
) -> Result<Outcome, Refusal>
    requires { IsSafeWorld state.old }
    ensures { Applies state.old (transit_due state.old instance partition sequence) (Moves state.old instance partition sequence) state.new result }
{
    let cost = state.transit_due(instance, partition, sequence)?;
    let node = state.servers.at_mut(instance.0 as usize);
    let outcome = node.transit(alloc, partition, sequence, state.moment, &mut state.store)?;
    state.counts.spend(cost);
    Ok(outcome)
}

/// A server loads the wanted file of a segment.
#[tactic(auto, using(rt_state::proofs::NeedsServers::download_needs, rt_state::proofs::Going::server_gets))]
pub(crate) fn download(
    state: &mut State,
    alloc: Global,
    instance: Instance,
    partition: Partition,
    sequence: Sequence,
) -> Result<Outcome, Refusal>
    requires { IsSafeWorld state.old }
    ensures { Applies state.old (download_due state.old instance partition sequence) (Loads state.old instance partition sequence) state.new result }
{
    let cost = state.download_due(instance, partition, sequence)?;
    let node = state.servers.at_mut(instance.0 as usize);
    let outcome = node.download(alloc, partition, sequence, &mut state.deep)?;
    state.counts.spend(cost);
    Ok(outcome)
}
