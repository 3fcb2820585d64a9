//! Words of a cluster: metadata, and the states of the ideal state and of the machine.
use rt_base::{Instance, Moment, Offset};
use rt_call_words::{Answer, Stop, Words};
use rt_lists::{Items, Text};
use rt_model::{Commit, IdealEntry, IdealState, MachineState, Mode, SegMeta, Status};
use std::alloc::Global;

/// `P/Q:sK:MODE ..`, or `-`: the entries of an ideal state.
pub fn state_in(alloc: Global, list: &str) -> Result<IdealState, Stop> {
    let mut entries = Items::new(alloc);
    if list == "-" {
        return Ok(IdealState { entries });
    }
    for word in list.split(' ') {
        entries.push(entry_in(&mut Words::of(word))?)?;
    }
    Ok(IdealState { entries })
}

fn entry_in(words: &mut Words) -> Result<IdealEntry, Stop> {
    let segment = words.segment_until(':');
    let instance = words.instance_until(':');
    let mode = words.word();
    words.ended()?;
    Ok(IdealEntry {
        partition: segment.partition,
        sequence: segment.sequence,
        instance,
        mode: mode_in(mode)?,
    })
}

fn mode_in(word: &str) -> Result<Mode, Stop> {
    match word {
        "CONSUMING" => Ok(Mode::Consuming),
        "ONLINE" => Ok(Mode::Online),
        "OFFLINE" => Ok(Mode::Offline),
        _ => Err(Stop::BadLine),
    }
}

/// `START:WRITTEN:STATUS`, and `:END` behind `DONE`: metadata without a name, a path and rows.
pub fn meta_in(alloc: Global, words: &mut Words) -> Result<SegMeta, Stop> {
    let start = Offset(words.number_until(':'));
    let written = Moment(words.number_until(':'));
    let status = status_in(alloc, words)?;
    words.ended()?;
    Ok(SegMeta {
        name: Text::new(alloc),
        start,
        status,
        written,
    })
}

// A commit has no path and no rows.
fn status_in(alloc: Global, words: &mut Words) -> Result<Status, Stop> {
    match words.until(':') {
        "IN_PROGRESS" => Ok(Status::InProgress),
        "ABANDONED" => Ok(Status::Abandoned),
        "DONE" => Ok(Status::Done(Commit {
            end: Offset(words.number()),
            path: Text::new(alloc),
            digest: [0; 32],
            rows: 0,
        })),
        _ => Err(Stop::BadLine),
    }
}

/// Adds instances with commas between them.
pub(crate) fn write_instances(instances: &[Instance], answer: &mut Answer) {
    for (place, instance) in instances.iter().enumerate() {
        answer.part(place, ",");
        answer.add("s");
        answer.count(instance.0);
    }
}

/// The name of a machine's state.
pub(crate) fn state_name(state: MachineState) -> &'static str {
    match state {
        MachineState::PartialConsuming => "PARTIAL_CONSUMING",
        MachineState::Holding => "HOLDING",
        MachineState::CommitterDecided => "COMMITTER_DECIDED",
        MachineState::CommitterNotified => "COMMITTER_NOTIFIED",
        MachineState::CommitterUploading => "COMMITTER_UPLOADING",
        MachineState::Committing => "COMMITTING",
        MachineState::Committed => "COMMITTED",
        MachineState::Aborted => "ABORTED",
    }
}
