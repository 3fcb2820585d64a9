ghost use Rattle.std.specs.Prelude.{◌≡◌};
ghost use Rattle.rt_model.specs.declared.reply.ReplyStatus.TheVariants as status;
ghost use Rattle.rt_model.specs.Completion.{IsBeforePick};
ghost use Rattle.rt_model.specs.Finished.{abandoned_row, committed_row, keeps};
ghost use Rattle.rt_model.specs.Messages.{asked_of};
ghost use Rattle.rt_controller.specs.declared.handled.Handled.TheVariants as handled;
ghost use Rattle.rt_controller.specs.Answers.{claimed, status_of};
ghost use Rattle.rt_controller.specs.Controller.{reply_to};
ghost use Rattle.rt_controller.specs.Requests.{first_state};

use crate::Handled;
use rt_base::{Header, Offset, Range};
use rt_model::{Ask, Asked, FailCause, MachineState, Reply, ReplyStatus, Request, Said, SeenMeta};

/// The reply to a request.
pub(crate) fn reply_to(asked: Asked, status: ReplyStatus) -> Reply
    ensures { result ≡ reply_to asked status }
{
    Reply {
        number: asked.number,
        partition: asked.partition,
        sequence: asked.sequence,
        status,
    }
}

/// A request that is answered at once.
pub(crate) fn replies(request: &Request, status: ReplyStatus) -> Handled
    ensures { result ≡ handled.Reply (reply_to (asked_of request.now) status) }
{
    Handled::Reply(reply_to(request.asked(), status))
}

/// A request that fails.
pub(crate) fn fails(request: &Request, cause: FailCause) -> Handled
    ensures { result ≡ handled.Reply (reply_to (asked_of request.now) (status.Failed cause)) }
{
    replies(request, ReplyStatus::Failed(cause))
}

/// The header that an upload claims: from 0 to its offset, no rows, the digest of what stands at its path.
pub(crate) fn claimed(request: &Request, digest: [u8; 32]) -> Header
    ensures { result ≡ claimed request.now digest }
{
    Header {
        partition: request.partition,
        sequence: request.sequence,
        range: Range {
            start: Offset(0),
            end: request.offset,
        },
        rows: 0,
        digest,
    }
}

/// What a machine says, as an answer.
pub(crate) fn status_of(said: Said) -> ReplyStatus
    ensures { result ≡ status_of said }
{
    match said {
        Said::Hold => ReplyStatus::Hold,
        Said::CatchUp(offset) => ReplyStatus::CatchUp(offset),
        Said::Commit(offset) => ReplyStatus::Commit(offset),
        Said::CommitContinue => ReplyStatus::CommitContinue,
        Said::Processed => ReplyStatus::Processed,
        Said::Failed(cause) => ReplyStatus::Failed(cause),
    }
}

/// The state in which a segment's machine begins at an ask.
pub(crate) fn first_state(ask: Ask) -> MachineState
    ensures state { result ≡ first_state ask }
    ensures before { IsBeforePick result }
{
    match ask {
        Ask::Stopped => MachineState::PartialConsuming,
        Ask::Consumed { .. } => MachineState::Holding,
        Ask::CommitStart { .. } => MachineState::Holding,
        Ask::CommitEnd { .. } => MachineState::Holding,
        Ask::Extend { .. } => MachineState::Holding,
    }
}

/// The answer of a segment that is Done at an end.
pub(crate) fn committed_row(seen: SeenMeta, end: Offset, ask: Ask) -> ReplyStatus
    ensures { result ≡ committed_row seen end ask }
{
    match ask {
        Ask::Consumed { offset, .. } => keeps(seen, end, offset),
        Ask::CommitStart { offset } => keeps(seen, end, offset),
        Ask::CommitEnd { offset } => keeps(seen, end, offset),
        Ask::Stopped => ReplyStatus::Processed,
        Ask::Extend { .. } => {
            ReplyStatus::Failed(FailCause::WrongState(MachineState::Committed))
        }
    }
}

fn keeps(seen: SeenMeta, end: Offset, offset: Offset) -> ReplyStatus
    ensures { result ≡ keeps seen end offset }
{
    if offset == end {
        ReplyStatus::Keep(seen)
    } else {
        ReplyStatus::Discard
    }
}

/// The answer of a segment that was given up.
pub(crate) fn abandoned_row(ask: Ask) -> ReplyStatus
    ensures { result ≡ abandoned_row ask }
{
    match ask {
        Ask::Consumed { .. } => ReplyStatus::Discard,
        Ask::CommitStart { .. } => ReplyStatus::Discard,
        Ask::CommitEnd { .. } => ReplyStatus::Discard,
        Ask::Stopped => ReplyStatus::Processed,
        Ask::Extend { .. } => ReplyStatus::Failed(FailCause::WrongState(MachineState::Aborted)),
    }
}
