ghost use Rattle.std.specs.Prelude.{◌≡◌, ◌<◌, true, Some, option_map};
ghost use Rattle.rt_consumer.specs.Consumer.{end_of};
ghost use Rattle.rt_entry.specs.declared.entry.Entry.TheVariants as entry;
ghost use Rattle.rt_entry.specs.Entry.{file_in, is_wanting, replica_in, rows_in, state_by, state_in, wanting};
ghost use Rattle.rt_entry.specs.Transition.{goes_on, gone_on, is_open, is_open_entry, told};
ghost use Rattle.rt_consumer.specs.declared.consumer.Consumer.{Consumer};

use rt_base::Offset;
use rt_model::{ReplicaState, SeenMeta, Status};
use rt_mutable::MutableSegment;
use rt_replica::Replica;
use rt_scan::SummarizedSegment;
use rt_segment::Sealed;

/// A committed segment, of which there is no replica: the metadata that told of its commit, and its file, or none where
/// that is wanted.
#[derive(Drop)]
pub struct CommittedSegment {
    pub done: SeenMeta,
    pub file: Option<SummarizedSegment>,
}

/// What a server has of a segment.
#[derive(Drop)]
pub enum Entry {
    Replica(Replica),
    Committed(CommittedSegment),
}

impl Entry {
    /// A committed segment whose file is wanted.
    pub fn wanting(done: SeenMeta) -> Entry
        ensures { result ≡ wanting done }
    {
        Entry::Committed(CommittedSegment { done, file: None })
    }

    /// The replica.
    pub fn replica(&self) -> Option<&Replica>
        ensures { option_map (λ replica. replica.now) result ≡ replica_in self.now }
    {
        match self {
            Entry::Replica(replica) => Some(replica),
            Entry::Committed(_) => None,
        }
    }

    /// The rows by column of a replica.
    pub fn held(&self) -> Option<&MutableSegment>
        ensures { option_map (λ rows. rows.now) result ≡ rows_in self.now }
    {
        match self {
            Entry::Replica(replica) => replica.held(),
            Entry::Committed(_) => None,
        }
    }

    /// The sealed rows of a committed entry.
    pub fn sealed(&self) -> Option<&Sealed>
        ensures { option_map (λ file. file.now) result ≡ file_in self.now }
    {
        match self.summarized() {
            Some(file) => Some(file.file()),
            None => None,
        }
    }

    /// The sealed rows of a committed entry, with their summaries.
    pub(crate) fn summarized(&self) -> Option<&SummarizedSegment>
        ensures { option_map (λ file. file.now) result ≡ file_in self.now }
    {
        match self {
            Entry::Replica(replica) => replica.sealed(),
            Entry::Committed(segment) => segment.file.as_ref(),
        }
    }

    /// The state of the entry; a committed segment without its file is as one that was dropped.
    pub fn state(&self) -> ReplicaState
        ensures { result ≡ state_in self.now }
    {
        match self {
            Entry::Replica(replica) => replica.state(),
            Entry::Committed(segment) => segment.state(),
        }
    }

    /// Whether the file is wanted.
    pub fn wants(&self) -> bool
        ensures { result ≡ is_wanting self.now }
    {
        match self {
            Entry::Replica(_) => false,
            Entry::Committed(segment) => segment.wants(),
        }
    }

    /// Whether a transition to ONLINE is due.
    pub fn is_open(&self) -> bool
        ensures { result ≡ is_open_entry self.now }
    {
        match self {
            Entry::Replica(replica) => is_open(replica.state()),
            Entry::Committed(_) => false,
        }
    }

    /// Tells of the segment's commit, which ends at `end`, and answers the state after it. A replica with rows, none of
    /// them past the end, goes on with them, and a built file is dropped; in any other case the file is wanted.
    pub fn learn(&mut self, done: SeenMeta, end: Offset) -> ReplicaState
        requires end { end_of done ≡ Some end }
        requires past { (r : Consumer) → self.old ≡ entry.Replica r → r.start.0 < end.0 }
        ensures state { result ≡ state_in (told self.old done end) }
        ensures entry { self.new ≡ told self.old done end }
    {
        if self.goes_on(end) {
            return self.go_on(done, end);
        }
        *self = Entry::wanting(done);
        ReplicaState::Discarded
    }

    /// Whether this is a replica with rows, none of them past an end.
    fn goes_on(&self, end: Offset) -> bool
        ensures { result ≡ goes_on self.now end }
    {
        match self {
            Entry::Replica(replica) => replica.learns() && replica.cur() <= end,
            Entry::Committed(_) => false,
        }
    }

    /// Tells a replica with rows, none of them past the committed end, of the commit.
    #[tactic(auto, using(crate::proofs::Learning::goes_learns, crate::proofs::Learning::goes_within))]
    fn go_on(&mut self, done: SeenMeta, end: Offset) -> ReplicaState
        requires goes { goes_on self.old end ≡ true }
        requires end { end_of done ≡ Some end }
        requires past { (r : Consumer) → self.old ≡ entry.Replica r → r.start.0 < end.0 }
        ensures state { result ≡ state_in (gone_on self.old done end) }
        ensures entry { self.new ≡ gone_on self.old done end }
    {
        match self {
            Entry::Replica(replica) => {
                replica.learn(done, end);
                replica.state()
            }
            Entry::Committed(_) => unreachable!(),
        }
    }
}

impl CommittedSegment {
    fn state(&self) -> ReplicaState
        ensures { result ≡ state_by self.now.file }
    {
        match &self.file {
            Some(_) => ReplicaState::Committed,
            None => ReplicaState::Discarded,
        }
    }

    /// Whether the file is wanted.
    fn wants(&self) -> bool
        ensures { result ≡ is_wanting (entry.Committed self.now) }
    {
        match (&self.file, &self.done.meta.status) {
            (None, Status::Done(_)) => true,
            _ => false,
        }
    }
}

/// Whether a replica of a segment that is to be served leaves this state.
fn is_open(state: ReplicaState) -> bool
    ensures { result ≡ is_open state }
{
    matches!(
        state,
        ReplicaState::InitialConsuming
            | ReplicaState::CatchingUp
            | ReplicaState::Holding
            | ReplicaState::Committing
            | ReplicaState::Discarded
    )
}
