use crate::Offset;

/// The offsets from `start` up to `end`, the end left out.
#[derive(Clone, Copy, Debug, PartialEq, Eq)]
pub struct Range {
    pub start: Offset,
    pub end: Offset,
}
