ghost use Rattle.std.specs.Prelude.{◌≡◌};
ghost use Rattle.rt_consumer.specs.Consumer.{state_of, cur_in};

use crate::Unsealed;
use rt_base::Offset;
use rt_model::{ReplicaState, SeenMeta};
use rt_scan::SummarizedSegment;

/// A committed segment: its sealed rows, and the metadata that told of its commit.
#[derive(Drop)]
pub struct CommittedFile {
    pub file: SummarizedSegment,
    pub done: SeenMeta,
}

/// What is left of a replica that dropped its rows.
#[derive(Drop, PartialEq, Eq)]
pub struct Discarded {
    /// How far it had consumed.
    pub cur: Offset,
    /// Whether it was stopped, and the controller hasn't processed that yet.
    pub stopped: bool,
}

/// What a replica holds.
#[derive(Drop)]
pub enum Phase {
    /// Its rows by column.
    Unsealed(Unsealed),
    /// The sealed rows of a segment that another committed.
    Retained(CommittedFile),
    /// The file that it committed.
    Committed(CommittedFile),
    /// Nothing.
    Discarded(Discarded),
}

impl Phase {
    /// The replica's state.
    pub fn state(&self) -> ReplicaState
        ensures { result ≡ state_of self.now }
    {
        match self {
            Phase::Unsealed(unsealed) => unsealed.stage.state(),
            Phase::Retained(_) => ReplicaState::Retained,
            Phase::Committed(_) => ReplicaState::Committed,
            Phase::Discarded(_) => ReplicaState::Discarded,
        }
    }

    /// The offset of the next message.
    pub fn cur(&self) -> Offset
        ensures { result ≡ cur_in self.now }
    {
        match self {
            Phase::Unsealed(unsealed) => unsealed.rows.end(),
            Phase::Retained(committed) => committed.file.file().range().end,
            Phase::Committed(committed) => committed.file.file().range().end,
            Phase::Discarded(discarded) => discarded.cur,
        }
    }
}
