use rt_base::{Partition, Sequence};

/// A segment by its partition and its number in it.
#[derive(Clone, Copy)]
pub struct Segment {
    pub partition: Partition,
    pub sequence: Sequence,
}
