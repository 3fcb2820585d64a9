use crate::{Partition, Range, Sequence};

/// What a sealed segment's file says of itself.
#[derive(Clone, Copy, Debug, PartialEq, Eq)]
pub struct Header {
    pub partition: Partition,
    pub sequence: Sequence,
    pub range: Range,
    /// The number of rows.
    pub rows: u32,
    /// The file's SHA-256.
    pub digest: [u8; 32],
}
