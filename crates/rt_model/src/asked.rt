use crate::RequestNumber;
use rt_base::{Partition, Sequence};

/// What an answer to a request says of it: its number, and the segment that it is about.
#[derive(Clone, Copy, Debug, PartialEq, Eq)]
pub struct Asked {
    pub number: RequestNumber,
    pub partition: Partition,
    pub sequence: Sequence,
}
