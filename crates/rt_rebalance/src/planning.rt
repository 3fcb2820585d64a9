ghost use Rattle.std.specs.Prelude.{◌≡◌, ◌≤◌, List, length, IfOk};
ghost use Rattle.rt_model.specs.declared.ideal_state.IdealState.{IdealState};
ghost use Rattle.rt_rebalance.specs.Plan.{IsRebalancePlan};
ghost use Rattle.rt_rebalance.specs.Planned.{Plans, planned, states_of, state_at, steps_of};
ghost use Rattle.rt_rebalance.specs.Refused.{refused_of, refused_segment};
ghost use Rattle.rt_rebalance.specs.Target.{IsTarget};

use crate::RebalanceRefused;
use crate::segments::{is_moved, next_pair};
use crate::slot::Slot;
use crate::slots::slots_of;
use rt_lists::Items;
use rt_model::{IdealEntry, IdealState};
use std::alloc::{AllocError, Global};

/// The states through which the segments go from the current state to a target that `target` made of it, so that of each
/// segment that is moved at least `keep` instances stay from each state to the next. In each step a moved segment gives up
/// its lowest instances that aren't in the target for the lowest of the target that it hasn't yet. No plan has fewer
/// states. It is refused by the first moved segment that has not as many instances in both states, or at most `keep`.
pub fn plan(
    alloc: Global,
    current: &IdealState,
    target: &IdealState,
    keep: u32,
) -> Result<Items<IdealState>, RebalanceRefused>
    ensures answer { Plans (planned keep current.now.entries target.now.entries) result }
    ensures plan { IsTarget current.now.entries target.now.entries → IfOk result (IsRebalancePlan keep current.now.entries target.now.entries) }
    ensures least { IsTarget current.now.entries target.now.entries → IfOk result (λ states. (others : List IdealState)
        → IsRebalancePlan keep current.now.entries target.now.entries others → length states ≤ length others) }
{
    plan_to(alloc, current, target, keep)
}

/// As `plan`, to any target of the same segments: those whose entries are all ONLINE are ONLINE there too, on any
/// instances, and all other entries are the same.
#[tactic(auto, using(crate::proofs::Plans::plans_are, crate::proofs::Least::plans_are_least))]
pub fn plan_to(
    alloc: Global,
    current: &IdealState,
    target: &IdealState,
    keep: u32,
) -> Result<Items<IdealState>, RebalanceRefused>
    ensures answer { Plans (planned keep current.now.entries target.now.entries) result }
    ensures plan { IsTarget current.now.entries target.now.entries → IfOk result (IsRebalancePlan keep current.now.entries target.now.entries) }
    ensures least { IsTarget current.now.entries target.now.entries → IfOk result (λ states. (others : List IdealState)
        → IsRebalancePlan keep current.now.entries target.now.entries others → length states ≤ length others) }
{
    planned(
        alloc,
        current.entries.as_slice(),
        target.entries.as_slice(),
        keep,
    )
}

#[tactic(auto, using(crate::proofs::Ends::plans_refused))]
fn planned(
    alloc: Global,
    now: &[IdealEntry],
    goal: &[IdealEntry],
    keep: u32,
) -> Result<Items<IdealState>, RebalanceRefused>
    ensures { Plans (planned keep now.now goal.now) result }
{
    match refused_of(keep, now, goal) {
        Some(refused) => Err(refused),
        None => {
            let slots = slots_of(alloc, keep, now, goal)?;
            Ok(states_of(alloc, slots.as_slice())?)
        }
    }
}

// Why there is no plan.
fn refused_of(keep: u32, now: &[IdealEntry], goal: &[IdealEntry]) -> Option<RebalanceRefused>
    ensures { result ≡ refused_of keep now.now goal.now }
{
    let mut later = now;
    let mut goals = goal;
    while let Some(next) = next_pair(later, goals) {
        let refused = refused_segment(keep, next.now, next.goal);
        if refused.is_some() {
            return refused;
        }
        later = next.later;
        goals = next.goals;
    }
    None
}

fn refused_segment(keep: u32, now: &[IdealEntry], goal: &[IdealEntry]) -> Option<RebalanceRefused>
    ensures { result ≡ refused_segment keep now.now goal.now }
{
    let first = now.first()?;
    if !is_moved(now, goal) {
        None
    } else if now.len() != goal.len() {
        Some(RebalanceRefused::Replicas(first.partition, first.sequence))
    } else if now.len() <= keep as usize {
        Some(RebalanceRefused::Keep(first.partition, first.sequence))
    } else {
        None
    }
}

// The states from the first to the one in which no instance leaves or comes any more.
#[tactic(auto, using(crate::proofs::Ends::states_more, crate::proofs::Ends::states_last))]
fn states_of(alloc: Global, slots: &[Slot]) -> Result<Items<IdealState>, AllocError>
    ensures { IfOk result (λ states. states ≡ states_of slots.now) }
{
    let last = steps_of(slots);
    let mut states = Items::new(alloc);
    for steps in 0..last {
        states.push(state_at(alloc, slots, steps)?)?;
    }
    states.push(state_at(alloc, slots, last)?)?;
    Ok(states)
}

fn steps_of(slots: &[Slot]) -> usize
    ensures { result ≡ steps_of slots.now }
{
    let mut last = 0;
    for slot in slots {
        last = last.max(slot.turn.last_step());
    }
    last
}

fn state_at(alloc: Global, slots: &[Slot], steps: usize) -> Result<IdealState, AllocError>
    ensures { IfOk result (λ state. state ≡ state_at slots.now steps) }
{
    let mut entries = Items::new(alloc);
    for slot in slots {
        if slot.turn.is_there(steps) {
            entries.push(slot.entry)?;
        }
    }
    Ok(IdealState { entries })
}
