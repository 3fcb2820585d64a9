use rt_lists::{Items, Text};

/// A realtime table's settings.
#[derive(Drop, PartialEq, Eq)]
pub struct Table {
    /// The name without its suffix `_REALTIME`.
    pub name: Text,
    /// The number of replicas of each segment.
    pub replication: u32,
    /// The names of the columns with an inverted index, in the order of the schema.
    pub indexed: Items<Text>,
    /// The row limit of a consuming segment.
    pub rows: u32,
    /// The time limit of a consuming segment, in milliseconds.
    pub millis: u64,
}
