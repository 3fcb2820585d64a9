use crate::cluster_words::state_in;
use rt_base::Instance;
use rt_call_words::{Answer, Segment, Stop, Words};
use rt_ideal::{add_consuming, commit_step, remove_segment, set_offline};
use rt_model::{IdealState, Mode};
use std::alloc::Global;

/// `ideal ENTRIES`, a tab and a step: the text of the state after it.
pub fn ideal(alloc: Global, words: &mut Words, answer: &mut Answer) -> Result<(), Stop> {
    let state = state_in(alloc, words.until('\t'))?;
    let after = step(alloc, &state, words)?;
    answer.add(rt_ideal::text(alloc, &after)?.as_str());
    Ok(())
}

/// `mode ENTRIES`, a tab and `P/Q sK`: the mode of an instance, or `none`.
pub fn mode(alloc: Global, words: &mut Words, answer: &mut Answer) -> Result<(), Stop> {
    let state = state_in(alloc, words.until('\t'))?;
    let segment = words.segment_until(' ');
    let instance = words.instance_until(' ');
    words.ended()?;
    match rt_ideal::mode(&state, segment.partition, segment.sequence, instance) {
        Some(Mode::Consuming) => answer.add("CONSUMING"),
        Some(Mode::Online) => answer.add("ONLINE"),
        Some(Mode::Offline) => answer.add("OFFLINE"),
        None => answer.add("none"),
    }
    Ok(())
}

// `STEP P/Q ..`
fn step(alloc: Global, state: &IdealState, words: &mut Words) -> Result<IdealState, Stop> {
    let name = words.word();
    let segment = words.segment_until(' ');
    match name {
        "remove_segment" => {
            words.ended()?;
            Ok(remove_segment(alloc, state, segment.partition, segment.sequence)?)
        }
        "set_offline" => {
            let instance = words.instance_until(' ');
            words.ended()?;
            Ok(set_offline(alloc, state, segment.partition, segment.sequence, instance)?)
        }
        _ => {
            let instances = words.instances(alloc);
            words.ended()?;
            place(alloc, state, name, segment, instances.as_slice())
        }
    }
}

// `commit_step P/Q SERVERS` or `add_consuming P/Q SERVERS`
fn place(
    alloc: Global,
    state: &IdealState,
    name: &str,
    segment: Segment,
    instances: &[Instance],
) -> Result<IdealState, Stop> {
    let Segment {
        partition,
        sequence,
    } = segment;
    if !are_distinct(instances) {
        return Err(Stop::Refused);
    }
    match name {
        "add_consuming" => Ok(add_consuming(alloc, state, partition, sequence, instances)?),
        "commit_step" => {
            if sequence.0 == u32::MAX {
                return Err(Stop::Refused);
            }
            Ok(commit_step(alloc, state, partition, sequence, instances)?)
        }
        _ => Err(Stop::BadLine),
    }
}

// Whether no instance comes twice.
fn are_distinct(instances: &[Instance]) -> bool {
    for (place, instance) in instances.iter().enumerate() {
        let rest = instances.get(place + 1..).unwrap_or(&[]);
        if rest.contains(instance) {
            return false;
        }
    }
    true
}
