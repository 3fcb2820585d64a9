use crate::QueryText;
use rt_base::{Instance, Partition, Sequence};
use rt_lists::Text;

/// A line that stands beside the events: what it asks for needs no event of its own in the world.
#[derive(Drop)]
pub enum Further {
    /// A query is asked of the latest row of each key.
    Latest {
        asked: QueryText,
    },
    /// Offline rows are pushed, which the text spells or not.
    Offline {
        text: Text,
    },
    /// A query is asked of offline and realtime rows.
    Hybrid {
        asked: QueryText,
    },
    /// What consumes is forced to be committed, and no replica begins to consume.
    Pause,
    /// Replicas begin to consume again.
    Resume,
    /// What consumes is forced to be committed.
    ForceCommit,
    /// It is asked which segments of the force job of this number aren't committed.
    ForceStatus {
        job: u64,
    },
    /// A server fetches a segment's file from the other servers.
    Peer {
        instance: Instance,
        partition: Partition,
        sequence: Sequence,
    },
    /// A rebalance is planned for so many servers, so many replicas of each segment being kept.
    Rehearse {
        servers: u64,
        keep: u64,
    },
    /// A server says that it has loaded a segment of the plan's present state.
    Loaded {
        instance: Instance,
        partition: Partition,
        sequence: Sequence,
    },
    /// The plan goes on to its next state.
    Step,
}
