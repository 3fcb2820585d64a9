use rt_base::{Offset, Partition, Sequence};

/// A part of a query's plan: a segment from its start to its end, or as far as it goes where it has no end.
#[derive(Clone, Copy, Debug, PartialEq, Eq)]
pub struct Piece {
    pub partition: Partition,
    pub sequence: Sequence,
    pub start: Offset,
    pub end: Option<Offset>,
}
