//! Answers of a controller, as reports name them.
use rt_base::{Header, Offset, Partition, Range, Sequence};
use rt_call_nodes::{status_in, write_headers};
use rt_call_words::{Answer, Stop, Words};
use rt_model::{FailCause, MachineState, ReplyStatus};
use rt_msgs::status_text;
use std::alloc::Global;

/// `status STATUS`: the text of an answer, which is written as a replica's calls have it.
pub fn status(alloc: Global, words: &mut Words, answer: &mut Answer) -> Result<(), Stop> {
    let status = status_in(alloc, words)?;
    answer.add(status_text(alloc, &status)?.as_str());
    Ok(())
}

/// `failure CAUSE`: the text of an answer that fails for this cause.
pub fn failure(alloc: Global, words: &mut Words, answer: &mut Answer) -> Result<(), Stop> {
    let cause = cause_in(words)?;
    words.ended()?;
    let status = ReplyStatus::Failed(cause);
    answer.add(status_text(alloc, &status)?.as_str());
    Ok(())
}

// A cause by its name, with what its text tells.
fn cause_in(words: &mut Words) -> Result<FailCause, Stop> {
    match words.word() {
        "wrongState" => Ok(FailCause::WrongState(state_in(words.word())?)),
        "wrongOffset" => Ok(FailCause::WrongOffset {
            asked: Offset(words.number()),
            kept: Offset(words.number()),
        }),
        "notCommitter" => Ok(FailCause::NotCommitter(words.instance_until(' '))),
        "noSegment" => Ok(FailCause::NoSegment),
        "versionChanged" => Ok(FailCause::VersionChanged {
            expected: words.number(),
            found: words.number(),
        }),
        "storeFault" => Ok(FailCause::StoreFault),
        "badUpload" => Ok(FailCause::BadUpload {
            wanted: no_header(),
            found: None,
        }),
        "idealChanged" => Ok(FailCause::IdealChanged([0; 10])),
        "notReplica" => Ok(FailCause::NotReplica),
        _ => Err(Stop::BadLine),
    }
}

fn state_in(word: &str) -> Result<MachineState, Stop> {
    match word {
        "partialConsuming" => Ok(MachineState::PartialConsuming),
        "holding" => Ok(MachineState::Holding),
        "committerDecided" => Ok(MachineState::CommitterDecided),
        "committerNotified" => Ok(MachineState::CommitterNotified),
        "committerUploading" => Ok(MachineState::CommitterUploading),
        "committing" => Ok(MachineState::Committing),
        "committed" => Ok(MachineState::Committed),
        "aborted" => Ok(MachineState::Aborted),
        _ => Err(Stop::BadLine),
    }
}

fn no_header() -> Header {
    Header {
        partition: Partition(0),
        sequence: Sequence(0),
        range: Range {
            start: Offset(0),
            end: Offset(0),
        },
        rows: 0,
        digest: [0; 32],
    }
}

/// Adds an answer, and behind that of a bad upload the header that was wanted and the one that was found.
pub(crate) fn write_status(
    alloc: Global,
    status: &ReplyStatus,
    answer: &mut Answer,
) -> Result<(), Stop> {
    answer.add(status_text(alloc, status)?.as_str());
    if let ReplyStatus::Failed(cause) = status {
        write_told(alloc, *cause, answer);
    }
    Ok(())
}

/// Adds what a cause tells beside its text.
pub(crate) fn write_told(alloc: Global, cause: FailCause, answer: &mut Answer) {
    if let FailCause::BadUpload { wanted, found } = cause {
        answer.add(" ");
        write_headers(alloc, wanted, found, answer);
    }
}
