//! Words of answers to a replica.
ghost use Rattle.std.specs.Prelude.{◌≡◌, Some};
ghost use Rattle.rt_consumer.specs.Consumer.{end_of};

use rt_base::{Moment, Offset};
use rt_call_words::{Stop, Words};
use rt_lists::Text;
use rt_model::{Commit, FailCause, ReplyStatus, RequestNumber, SeenMeta, SegMeta, Status};
use std::alloc::Global;

/// An answer by its status: an offset stands behind CATCH_UP and COMMIT, the committed end behind KEEP and COMMIT_SUCCESS,
/// the path behind UPLOAD_SUCCESS, and behind FAILED the number of a cause that tells nothing more.
pub fn status_in(alloc: Global, words: &mut Words) -> Result<ReplyStatus, Stop> {
    let status = match words.word() {
        "HOLD" => ReplyStatus::Hold,
        "CATCH_UP" => ReplyStatus::CatchUp(Offset(words.number())),
        "KEEP" => ReplyStatus::Keep(done_at(alloc, Offset(words.number()))),
        "DISCARD" => ReplyStatus::Discard,
        "COMMIT" => ReplyStatus::Commit(Offset(words.number())),
        "NOT_LEADER" => ReplyStatus::NotLeader,
        "COMMIT_CONTINUE" => ReplyStatus::CommitContinue,
        "UPLOAD_SUCCESS" => { ReplyStatus::UploadSuccess(Text::copied_from(alloc, words.word())?) }
        "COMMIT_SUCCESS" => ReplyStatus::CommitSuccess(done_at(alloc, Offset(words.number()))),
        "PROCESSED" => ReplyStatus::Processed,
        "FAILED" => ReplyStatus::Failed(cause_in(words.word())?),
        _ => return Err(Stop::BadLine),
    };
    words.ended()?;
    Ok(status)
}

fn cause_in(word: &str) -> Result<FailCause, Stop> {
    match word {
        "4" => Ok(FailCause::NoSegment),
        "6" => Ok(FailCause::StoreFault),
        "9" => Ok(FailCause::NotReplica),
        _ => Err(Stop::BadLine),
    }
}

/// `sK INCARNATION COUNT`, the number of a request.
pub(crate) fn number_in(words: &mut Words) -> RequestNumber {
    RequestNumber {
        instance: words.instance_until(' '),
        incarnation: words.number(),
        count: words.number(),
    }
}

/// Metadata of a commit that ends at an offset.
pub(crate) fn done_at(alloc: Global, end: Offset) -> SeenMeta
    ensures { end_of result ≡ Some end }
{
    let commit = Commit {
        end,
        path: Text::new(alloc),
        digest: [0; 32],
        rows: 0,
    };
    SeenMeta {
        version: 0,
        meta: SegMeta {
            name: Text::new(alloc),
            start: Offset(0),
            status: Status::Done(commit),
            written: Moment(0),
        },
    }
}
