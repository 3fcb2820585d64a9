use rt_base::{Instance, Partition, Sequence};
use rt_call_cluster::state_in;
use rt_call_nodes::write_segment;
use rt_call_words::{Answer, Stop, Words};
use rt_rebalance::{RebalanceRefused, Rehearsal, plan_to};
use std::alloc::Global;

/// `rehearse ENTRIES`, and as further parts `KEEP ENTRIES` and calls with `; ` between them: the number of the states of a plan
/// from the first entries to the others, and each call's answer as it is gone through.
pub fn rehearse(alloc: Global, words: &mut Words, answer: &mut Answer) -> Result<(), Stop> {
    let current = state_in(alloc, words.until('\t'))?;
    let keep = words.count();
    let target = state_in(alloc, words.until('\t'))?;
    let calls = words.rest();
    words.ended()?;
    match plan_to(alloc, &current, &target, keep) {
        Ok(states) => {
            answer.add("states ");
            answer.number(states.len() as u64);
            call_all(&mut Rehearsal::begin(alloc, states), calls, answer)
        }
        Err(refused) => refuse(refused, answer),
    }
}

fn call_all(rehearsal: &mut Rehearsal, calls: &str, answer: &mut Answer) -> Result<(), Stop> {
    for call in calls.split("; ") {
        answer.add("; ");
        call_rehearsal(rehearsal, &mut Words::of(call), answer)?;
    }
    Ok(())
}

fn call_rehearsal(
    rehearsal: &mut Rehearsal,
    words: &mut Words,
    answer: &mut Answer,
) -> Result<(), Stop> {
    match words.word() {
        "loaded" => load(rehearsal, words, answer),
        "step" => {
            words.ended()?;
            step(rehearsal, answer)
        }
        _ => Err(Stop::BadLine),
    }
}

// `loaded P/Q sK`
fn load(rehearsal: &mut Rehearsal, words: &mut Words, answer: &mut Answer) -> Result<(), Stop> {
    let segment = words.segment_until(' ');
    let instance = words.instance_until(' ');
    words.ended()?;
    let is_planned = rehearsal.loaded(segment.partition, segment.sequence, instance);
    answer.add(if is_planned {
        "rehearsed"
    } else {
        "notplanned"
    });
    Ok(())
}

fn step(rehearsal: &mut Rehearsal, answer: &mut Answer) -> Result<(), Stop> {
    match rehearsal.step() {
        Ok(at) => {
            answer.add("at ");
            answer.number(at as u64);
            Ok(())
        }
        Err(refused) => refuse(refused, answer),
    }
}

// `noplan K`, and the segment and the instance that the refusal names.
fn refuse(refused: RebalanceRefused, answer: &mut Answer) -> Result<(), Stop> {
    let Some(number) = refused.number() else {
        return Err(Stop::Memory);
    };
    answer.add("noplan ");
    answer.count(number);
    match refused {
        RebalanceRefused::Replicas(p, q) => write_named(p, q, answer),
        RebalanceRefused::Keep(p, q) => write_named(p, q, answer),
        RebalanceRefused::NotLoaded(p, q, instance) => {
            write_named(p, q, answer);
            write_instance(instance, answer);
        }
        RebalanceRefused::Ended => {}
        RebalanceRefused::Memory => {}
    }
    Ok(())
}

fn write_named(partition: Partition, sequence: Sequence, answer: &mut Answer) {
    answer.add(" ");
    write_segment(partition, sequence, answer);
}

fn write_instance(instance: Instance, answer: &mut Answer) {
    answer.add(" s");
    answer.count(instance.0);
}
