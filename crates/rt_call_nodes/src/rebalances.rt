use crate::listed_words::write_segment;
use rt_base::{Partition, Sequence};
use rt_call_cluster::state_in;
use rt_call_words::{Answer, Stop, Words};
use rt_model::IdealState;
use rt_rebalance::{RebalanceRefused, plan, plan_to, target};
use std::alloc::Global;

/// `rebalance ENTRIES`, a tab and what is asked: `plan REPLICATION SERVERS KEEP` with the target that the formula gives,
/// or `plan_to KEEP ENTRIES`. The answer is the plan's states, behind the target that was made, or the refusal.
pub fn rebalance(alloc: Global, words: &mut Words, answer: &mut Answer) -> Result<(), Stop> {
    let current = state_in(alloc, words.until('\t'))?;
    match words.word() {
        "plan" => plan_by_formula(alloc, &current, words, answer),
        "plan_to" => plan_to_entries(alloc, &current, words, answer),
        _ => Err(Stop::BadLine),
    }
}

// `REPLICATION SERVERS KEEP`
fn plan_by_formula(
    alloc: Global,
    current: &IdealState,
    words: &mut Words,
    answer: &mut Answer,
) -> Result<(), Stop> {
    let replication = words.count();
    let servers = words.count();
    let keep = words.count();
    words.ended()?;
    if replication < 1 || replication > servers {
        return Err(Stop::Refused);
    }
    let target = target(alloc, current, replication, servers)?;
    write_state(alloc, &target, answer)?;
    answer.add(" ");
    match plan(alloc, current, &target, keep) {
        Ok(states) => write_plan(alloc, states.as_slice(), answer),
        Err(refused) => refuse(refused, answer),
    }
}

// `KEEP ENTRIES`
fn plan_to_entries(
    alloc: Global,
    current: &IdealState,
    words: &mut Words,
    answer: &mut Answer,
) -> Result<(), Stop> {
    let keep = words.count();
    let entries = words.rest();
    words.ended()?;
    let target = state_in(alloc, entries)?;
    match plan_to(alloc, current, &target, keep) {
        Ok(states) => write_plan(alloc, states.as_slice(), answer),
        Err(refused) => refuse(refused, answer),
    }
}

fn write_plan(alloc: Global, states: &[IdealState], answer: &mut Answer) -> Result<(), Stop> {
    answer.add("ok");
    for state in states {
        answer.add(" ");
        write_state(alloc, state, answer)?;
    }
    Ok(())
}

fn write_state(alloc: Global, state: &IdealState, answer: &mut Answer) -> Result<(), Stop> {
    answer.add(rt_ideal::text(alloc, state)?.as_str());
    Ok(())
}

// A plan is refused by its first two causes alone; the next two are a rehearsal's.
fn refuse(refused: RebalanceRefused, answer: &mut Answer) -> Result<(), Stop> {
    match refused {
        RebalanceRefused::Replicas(p, q) => refuse_segment("replicas ", p, q, answer),
        RebalanceRefused::Keep(p, q) => refuse_segment("keep ", p, q, answer),
        RebalanceRefused::NotLoaded(p, q, _) => refuse_segment("notloaded ", p, q, answer),
        RebalanceRefused::Ended => answer.add("ended"),
        RebalanceRefused::Memory => return Err(Stop::Memory),
    }
    Ok(())
}

fn refuse_segment(cause: &str, partition: Partition, sequence: Sequence, answer: &mut Answer) {
    answer.add(cause);
    write_segment(partition, sequence, answer);
}
