use crate::Status;
use rt_base::{Moment, Offset};
use rt_lists::Text;

/// The metadata of a segment.
#[derive(Drop, PartialEq, Eq)]
pub struct SegMeta {
    /// The segment's name.
    pub name: Text,
    /// The offset of its first message.
    pub start: Offset,
    pub status: Status,
    /// When this was written.
    pub written: Moment,
}

/// Metadata, and the version at which it was read.
#[derive(Drop, PartialEq, Eq)]
pub struct SeenMeta {
    pub version: u64,
    pub meta: SegMeta,
}
