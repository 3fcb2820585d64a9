use crate::{FailCause, Reason};
use rt_base::Offset;

/// What a replica asks of a segment's completion machine.
#[derive(Clone, Copy, Debug, PartialEq, Eq)]
pub enum Ask {
    Consumed { offset: Offset, reason: Reason },
    CommitStart { offset: Offset },
    CommitEnd { offset: Offset },
    Stopped,
    /// More time for the build, in milliseconds.
    Extend { millis: u64 },
}

impl Ask {
    ghost use Rattle.std.specs.Prelude.{◌≡◌};
    ghost use Rattle.rt_model.specs.Completion.{asked_offset};

    /// The offset that the ask speaks of; `Stopped` and `Extend` have none.
    pub fn offset(&self) -> Option<Offset>
        ensures { result ≡ asked_offset self.now }
    {
        match self {
            Ask::Consumed { offset, .. }
            | Ask::CommitStart { offset }
            | Ask::CommitEnd { offset } => Some(*offset),
            Ask::Stopped | Ask::Extend { .. } => None,
        }
    }
}

/// What a completion machine answers by itself.
#[derive(Clone, Copy, Debug, PartialEq, Eq)]
pub enum Said {
    Hold,
    CatchUp(Offset),
    Commit(Offset),
    CommitContinue,
    Processed,
    Failed(FailCause),
}

/// What a completion machine does: it answers, or has its controller start a job.
#[derive(Clone, Copy, Debug, PartialEq, Eq)]
pub enum Reaction {
    Answer(Said),
    /// A commit job up to this offset.
    StartCommit(Offset),
    StartOffline,
}
