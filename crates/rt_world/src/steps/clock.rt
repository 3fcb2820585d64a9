//! What lies outside the nodes: the clock, who believes that it leads, and the faults to come.
ghost use Rattle.rt_state.specs.Clock.{tick_due, ticked, lead_due, Believes, fault_due, store_faulted, deep_faulted, pass_due, Passes};
ghost use Rattle.rt_state.specs.Applying.{Applies, comes};
ghost use Rattle.rt_state.specs.IsSafeWorld.{IsSafeWorld};

use rt_base::{ControllerId, Moment};
use rt_events::{Outcome, Refusal};
use rt_state::State;

/// Moves the clock on.
#[tactic(auto, using(rt_state::proofs::NeedsNodes::tick_needs))]
pub(crate) fn tick(state: &mut State, millis: u64) -> Result<Outcome, Refusal>
    requires { IsSafeWorld state.old }
    ensures { Applies state.old (tick_due state.old millis) (λ cost. comes (ticked state.old millis cost)) state.new result }
{
    let cost = state.tick_due(millis)?;
    state.moment = Moment(state.moment.0 + millis);
    state.counts.spend(cost);
    Ok(Outcome::Now(state.moment))
}

/// Tells a controller whether it leads.
#[tactic(auto, using(rt_state::proofs::NeedsNodes::lead_needs, rt_state::proofs::Leading::controller_does))]
pub(crate) fn lead(
    state: &mut State,
    controller: ControllerId,
    on: bool,
) -> Result<Outcome, Refusal>
    requires { IsSafeWorld state.old }
    ensures { Applies state.old (lead_due state.old controller) (Believes state.old controller on) state.new result }
{
    let cost = state.lead_due(controller)?;
    let node = state.controllers.at_mut(controller.0 as usize);
    node.controller.believe(on);
    state.counts.spend(cost);
    Ok(Outcome::Noted)
}

/// Plans a fault of the store.
#[tactic(auto, using(rt_state::proofs::Dues::priced_spends))]
pub(crate) fn fault_store(state: &mut State, kept: bool) -> Result<Outcome, Refusal>
    requires { IsSafeWorld state.old }
    ensures { Applies state.old (fault_due state.old) (λ cost. comes (store_faulted state.old kept cost)) state.new result }
{
    let cost = state.fault_due()?;
    state.store.plan_fault(kept)?;
    state.counts.spend(cost);
    Ok(Outcome::Noted)
}

/// Plans a fault of the deep store.
#[tactic(auto, using(rt_state::proofs::Dues::priced_spends))]
pub(crate) fn fault_deep(state: &mut State, kept: bool) -> Result<Outcome, Refusal>
    requires { IsSafeWorld state.old }
    ensures { Applies state.old (fault_due state.old) (λ cost. comes (deep_faulted state.old kept cost)) state.new result }
{
    let cost = state.fault_due()?;
    state.deep.plan_fault(kept)?;
    state.counts.spend(cost);
    Ok(Outcome::Noted)
}

/// Passes over a line that is no event; it counts as one.
#[tactic(auto, using(rt_state::proofs::Dues::priced_spends))]
pub(crate) fn pass(state: &mut State) -> Result<(), Refusal>
    requires { IsSafeWorld state.old }
    ensures { Passes state.old state.new result }
{
    let cost = state.pass_due()?;
    state.counts.spend(cost);
    Ok(())
}
