use rt_lists::{Items, Text};

/// The limits of a consuming segment.
#[derive(Clone, Copy, Drop)]
pub(crate) struct StreamConfig {
    /// Rows.
    pub(crate) rows: u32,
    /// Milliseconds.
    pub(crate) millis: u64,
}

/// The section of a table's indexes and of its stream.
#[derive(Drop)]
pub(crate) struct IndexConfig {
    /// The names of the columns with an inverted index, in the order of the schema.
    pub(crate) indexed: Items<Text>,
    pub(crate) stream: StreamConfig,
}
