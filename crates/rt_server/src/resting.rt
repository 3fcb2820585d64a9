//! Which replicas are at rest. A long run holds many of them, most of them side by side: one walk passes them all.
ghost use Rattle.std.specs.Prelude.{◌≡◌};
ghost use Rattle.std.specs.List.{prefix_len};
ghost use Rattle.rt_entry.specs.Entry.{replica_in};
ghost use Rattle.rt_server.specs.Resting.{IsWalk, rests_at, rests_by, rests_in};

use crate::Server;
use crate::table::Table;
use rt_base::{Partition, Sequence};
use rt_entry::Entry;
use rt_model::ReplicaState;
use std::collections::btree_map::Range;
use std::ops::Bound;

impl Server {
    /// How many of the first segments of a list have replicas at rest. It costs a step for each whose entry follows that of
    /// the one before, and a search for any other; it takes no memory.
    pub fn resting(&self, segments: &[(Partition, Sequence)]) -> usize
        ensures { result ≡ prefix_len (rests_at self.now.table) segments.now }
    {
        self.table.resting(segments)
    }
}

impl Table {
    /// How many of the first segments of a list have replicas at rest. Takes no memory.
    fn resting(&self, segments: &[(Partition, Sequence)]) -> usize
        ensures { result ≡ prefix_len (rests_at self.now) segments.now }
    {
        let Some(first) = segments.first() else {
            return 0;
        };
        let mut walk = self.entries.range(*first..);
        for (passed, segment) in segments.iter().enumerate() {
            if !self.next_rests(*segment, &mut walk) {
                return passed;
            }
        }
        segments.len()
    }

    /// Whether the replica of a segment is at rest. Its entry is the next of a walk; else it is searched for, and the walk
    /// goes on behind it.
    fn next_rests<'a>(
        &'a self,
        segment: (Partition, Sequence),
        walk: &mut Range<'a, (Partition, Sequence), Entry>,
    ) -> bool
        requires { IsWalk self.now walk.old }
        ensures rests { result ≡ rests_at self.now segment }
        ensures walk { IsWalk self.now walk.new }
    {
        match walk.next() {
            Some((found, entry)) if *found == segment => rests(entry),
            _ => {
                *walk = self
                    .entries
                    .range((Bound::Excluded(segment), Bound::Unbounded));
                self.rests(segment)
            }
        }
    }

    fn rests(&self, segment: (Partition, Sequence)) -> bool
        ensures { result ≡ rests_at self.now segment }
    {
        match self.entry(segment.0, segment.1) {
            Some(entry) => rests(entry),
            None => false,
        }
    }
}

fn rests(entry: &Entry) -> bool
    ensures { result ≡ rests_by (replica_in entry.now) }
{
    match entry.replica() {
        Some(replica) => rests_in(replica.state()),
        None => false,
    }
}

// Whether a replica in a state is at rest: it has the file of its committed segment.
fn rests_in(state: ReplicaState) -> bool
    ensures { result ≡ rests_in state }
{
    matches!(state, ReplicaState::Retained | ReplicaState::Committed)
}
