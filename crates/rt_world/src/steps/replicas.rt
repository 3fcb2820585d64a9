//! The calls of a replica, through its server.
ghost use Rattle.rt_state.specs.Replicas.{consume_due, force_due, stop_due, build_due, Consumes, Forces, Stops, Builds};
ghost use Rattle.rt_state.specs.Applying.{Applies};
ghost use Rattle.rt_state.specs.IsSafeWorld.{IsSafeWorld};

use rt_base::{Instance, Partition, Sequence};
use rt_events::{Outcome, Refusal};
use rt_state::State;
use std::alloc::Global;

/// A replica takes a batch of messages.
#[tactic(auto, using(rt_state::proofs::NeedsServers::consume_needs, rt_state::proofs::Going::server_fetches))]
pub(crate) fn consume(
    state: &mut State,
    alloc: Global,
    instance: Instance,
    partition: Partition,
    sequence: Sequence,
    max: u32,
) -> Result<Outcome, Refusal>
    requires { IsSafeWorld state.old }
    ensures { Applies state.old (consume_due state.old instance partition sequence max) (Consumes state.old instance partition sequence max) state.new result }
{
    let cost = state.consume_due(instance, partition, sequence, max)?;
    let node = state.servers.at_mut(instance.0 as usize);
    let outcome = node.consume(
        alloc,
        partition,
        sequence,
        &mut state.log,
        max,
        state.moment,
    )?;
    state.counts.spend(cost);
    Ok(outcome)
}

/// A replica's consuming is ended.
#[tactic(auto, using(rt_state::proofs::NeedsServers::force_needs, rt_state::proofs::Going::server_does))]
pub(crate) fn force(
    state: &mut State,
    instance: Instance,
    partition: Partition,
    sequence: Sequence,
) -> Result<Outcome, Refusal>
    requires { IsSafeWorld state.old }
    ensures { Applies state.old (force_due state.old instance partition sequence) (Forces state.old instance partition sequence) state.new result }
{
    let cost = state.force_due(instance, partition, sequence)?;
    let node = state.servers.at_mut(instance.0 as usize);
    let outcome = node.force(partition, sequence)?;
    state.counts.spend(cost);
    Ok(outcome)
}

/// A replica drops its rows.
#[tactic(auto, using(rt_state::proofs::NeedsServers::stop_needs, rt_state::proofs::Going::server_does))]
pub(crate) fn stop(
    state: &mut State,
    instance: Instance,
    partition: Partition,
    sequence: Sequence,
) -> Result<Outcome, Refusal>
    requires { IsSafeWorld state.old }
    ensures { Applies state.old (stop_due state.old instance partition sequence) (Stops state.old instance partition sequence) state.new result }
{
    let cost = state.stop_due(instance, partition, sequence)?;
    let node = state.servers.at_mut(instance.0 as usize);
    let outcome = node.stop(partition, sequence)?;
    state.counts.spend(cost);
    Ok(outcome)
}

/// A replica seals its rows.
#[tactic(auto, using(rt_state::proofs::NeedsServers::build_needs, rt_state::proofs::Going::server_does))]
pub(crate) fn build(
    state: &mut State,
    alloc: Global,
    instance: Instance,
    partition: Partition,
    sequence: Sequence,
) -> Result<Outcome, Refusal>
    requires { IsSafeWorld state.old }
    ensures { Applies state.old (build_due state.old instance partition sequence) (Builds state.old instance partition sequence) state.new result }
{
    let cost = state.build_due(instance, partition, sequence)?;
    let node = state.servers.at_mut(instance.0 as usize);
    let outcome = node.build(alloc, partition, sequence)?;
    state.counts.spend(cost);
    Ok(outcome)
}
