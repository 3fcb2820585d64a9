ghost use Rattle.std.specs.Prelude.{◌≡◌, IfOk};
ghost use Rattle.rt_msgs.specs.StatusText.{status_text, fail_text, offsets_text, versions_text, state_text};

use rt_lists::Text;
use rt_model::{FailCause, MachineState, ReplyStatus};
use std::alloc::{AllocError, Global};

/// An answer as reports name it: its status in Pinot's words, with the offset that it names, and of a failure the
/// number of its cause and what the cause tells. Fails only where memory is refused.
pub fn status_text(alloc: Global, status: &ReplyStatus) -> Result<Text, AllocError>
    ensures { IfOk result (λ text. text ≡ status_text status.now) }
{
    match status {
        ReplyStatus::Hold => Text::copied_from(alloc, "HOLD"),
        ReplyStatus::CatchUp(offset) => {
            let offset = offset.0;
            Ok(Text::of(format!(in alloc; "CATCH_UP {offset}")?))
        }
        ReplyStatus::Keep(_) => Text::copied_from(alloc, "KEEP"),
        ReplyStatus::Discard => Text::copied_from(alloc, "DISCARD"),
        ReplyStatus::Commit(offset) => {
            let offset = offset.0;
            Ok(Text::of(format!(in alloc; "COMMIT {offset}")?))
        }
        ReplyStatus::NotLeader => Text::copied_from(alloc, "NOT_LEADER"),
        ReplyStatus::CommitContinue => Text::copied_from(alloc, "COMMIT_CONTINUE"),
        ReplyStatus::UploadSuccess(_) => Text::copied_from(alloc, "UPLOAD_SUCCESS"),
        ReplyStatus::CommitSuccess(_) => Text::copied_from(alloc, "COMMIT_SUCCESS"),
        ReplyStatus::Processed => Text::copied_from(alloc, "PROCESSED"),
        ReplyStatus::Failed(cause) => fail_text(alloc, cause),
    }
}

/// A failure with the number of its cause.
fn fail_text(alloc: Global, cause: &FailCause) -> Result<Text, AllocError>
    ensures { IfOk result (λ text. text ≡ fail_text cause.now) }
{
    match cause {
        FailCause::WrongState(state) => {
            let state = state_text(*state);
            Ok(Text::of(format!(in alloc; "FAILED 1 {state}")?))
        }
        FailCause::WrongOffset { asked, kept } => offsets_text(alloc, asked.0, kept.0),
        FailCause::NotCommitter(committer) => {
            let committer = committer.0;
            Ok(Text::of(format!(in alloc; "FAILED 3 committer=s{committer}")?))
        }
        FailCause::NoSegment => Text::copied_from(alloc, "FAILED 4"),
        FailCause::VersionChanged { expected, found } => versions_text(alloc, *expected, *found),
        FailCause::StoreFault => Text::copied_from(alloc, "FAILED 6"),
        FailCause::BadUpload { .. } => Text::copied_from(alloc, "FAILED 7"),
        FailCause::IdealChanged(_) => Text::copied_from(alloc, "FAILED 8"),
        FailCause::NotReplica => Text::copied_from(alloc, "FAILED 9"),
    }
}

/// A failure by an offset that isn't the one that is kept.
fn offsets_text(alloc: Global, asked: u64, kept: u64) -> Result<Text, AllocError>
    ensures { IfOk result (λ text. text ≡ offsets_text asked kept) }
{
    let text = format!(in alloc; "FAILED 2 asked={asked} kept={kept}")?;
    Ok(Text::of(text))
}

/// A failure by a version that isn't the expected one.
fn versions_text(alloc: Global, expected: u64, found: u64) -> Result<Text, AllocError>
    ensures { IfOk result (λ text. text ≡ versions_text expected found) }
{
    let text = format!(in alloc; "FAILED 5 expected={expected} found={found}")?;
    Ok(Text::of(text))
}

/// A state of the completion machine, as reports name it.
fn state_text(state: MachineState) -> &'static str
    ensures { result.now ≡ state_text state }
{
    match state {
        MachineState::PartialConsuming => "PARTIAL_CONSUMING",
        MachineState::Holding => "HOLDING",
        MachineState::CommitterDecided => "COMMITTER_DECIDED",
        MachineState::CommitterNotified => "COMMITTER_NOTIFIED",
        MachineState::CommitterUploading => "COMMITTER_UPLOADING",
        MachineState::Committing => "COMMITTING",
        MachineState::Committed => "COMMITTED",
        MachineState::Aborted => "ABORTED",
    }
}
