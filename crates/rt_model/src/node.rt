use crate::{IdealState, SeenMeta, SegMeta};
use rt_base::{Instance, Partition, Sequence};

/// The name of a node of the store. A sequence is at most 4,294,967,294.
#[derive(Clone, Copy, Debug, PartialEq, Eq, PartialOrd, Ord)]
pub enum Key {
    /// The metadata of a segment.
    Meta(Partition, Sequence),
    /// The ideal state.
    Ideal,
    /// The boot node of a server.
    Boot(Instance),
}

/// What a write put at its key.
#[derive(Drop, PartialEq, Eq)]
pub enum Node {
    Meta(SegMeta),
    Ideal(IdealState),
    Boot,
    /// The node was deleted.
    Gone,
}

/// A write of the store: its key, its version and its node.
#[derive(Drop, PartialEq, Eq)]
pub struct Seen {
    pub key: Key,
    /// The number of earlier writes of the key.
    pub version: u64,
    pub node: Node,
}

/// A present metadata node of a partition.
#[derive(Drop, PartialEq, Eq)]
pub struct Listed {
    pub sequence: Sequence,
    pub seen: SeenMeta,
}
