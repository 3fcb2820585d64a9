use rt_base::{Instance, Partition, Sequence};
use rt_lists::Items;

/// What the ideal state asks of a replica.
#[derive(Clone, Copy, Debug, PartialEq, Eq)]
pub enum Mode {
    Consuming,
    Online,
    Offline,
}

/// What the ideal state asks of an instance for a segment.
#[derive(Clone, Copy, Debug, PartialEq, Eq)]
pub struct IdealEntry {
    pub partition: Partition,
    pub sequence: Sequence,
    pub instance: Instance,
    pub mode: Mode,
}

/// The ideal state of the table: its entries, ascending by partition, sequence and instance.
#[derive(Drop, PartialEq, Eq)]
pub struct IdealState {
    pub entries: Items<IdealEntry>,
}
