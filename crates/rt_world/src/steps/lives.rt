//! Crashes and restarts.
ghost use Rattle.rt_state.specs.Lives.{
  crash_server_due,
  crash_controller_due,
  restart_server_due,
  restart_controller_due,
  ServerCrashes,
  ServerRestarts,
  ControllerCrashes,
  ControllerRestarts,
};
ghost use Rattle.rt_state.specs.Applying.{Applies};
ghost use Rattle.rt_state.specs.IsSafeWorld.{IsSafeWorld};

use rt_base::{ControllerId, Instance};
use rt_events::{Outcome, Refusal};
use rt_state::State;
use std::alloc::Global;

/// A server forgets all but its number, and is down.
#[tactic(auto, using(rt_state::proofs::NeedsNodes::crash_server_needs, rt_state::proofs::Going::server_does))]
pub(crate) fn crash_server(state: &mut State, instance: Instance) -> Result<Outcome, Refusal>
    requires { IsSafeWorld state.old }
    ensures { Applies state.old (crash_server_due state.old instance) (ServerCrashes state.old instance) state.new result }
{
    let cost = state.crash_server_due(instance)?;
    state.servers.at_mut(instance.0 as usize).crash();
    state.counts.spend(cost);
    Ok(Outcome::Down)
}

/// A controller forgets its machines, its jobs and its belief, and is down.
#[tactic(auto, using(rt_state::proofs::NeedsNodes::lead_needs, rt_state::proofs::Leading::controller_does))]
pub(crate) fn crash_controller(
    state: &mut State,
    controller: ControllerId,
) -> Result<Outcome, Refusal>
    requires { IsSafeWorld state.old }
    ensures { Applies state.old (crash_controller_due state.old controller) (ControllerCrashes state.old controller) state.new result }
{
    let cost = state.crash_controller_due(controller)?;
    state.controllers.at_mut(controller.0 as usize).crash();
    state.counts.spend(cost);
    Ok(Outcome::Down)
}

/// A server begins an incarnation, unless the store fails.
#[tactic(auto, using(rt_state::proofs::NeedsNodes::restart_server_needs, rt_state::proofs::Going::server_calls))]
pub(crate) fn restart_server(
    state: &mut State,
    alloc: Global,
    instance: Instance,
) -> Result<Outcome, Refusal>
    requires { IsSafeWorld state.old }
    ensures { Applies state.old (restart_server_due state.old instance) (ServerRestarts state.old instance) state.new result }
{
    let cost = state.restart_server_due(instance)?;
    let node = state.servers.at_mut(instance.0 as usize);
    let outcome = node.restart(alloc, &mut state.store)?;
    state.counts.spend(cost);
    Ok(outcome)
}

/// A controller is up again.
#[tactic(auto, using(rt_state::proofs::NeedsNodes::restart_controller_needs, rt_state::proofs::Leading::controller_does))]
pub(crate) fn restart_controller(
    state: &mut State,
    controller: ControllerId,
) -> Result<Outcome, Refusal>
    requires { IsSafeWorld state.old }
    ensures { Applies state.old (restart_controller_due state.old controller) (ControllerRestarts state.old controller) state.new result }
{
    let cost = state.restart_controller_due(controller)?;
    state.controllers.at_mut(controller.0 as usize).restart();
    state.counts.spend(cost);
    Ok(Outcome::Up { incarnation: None })
}
