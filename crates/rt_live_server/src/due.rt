use rt_base::{Moment, Partition, Sequence};

/// What a server has to do next for a segment.
#[derive(Clone, Copy, Debug, PartialEq, Eq)]
pub(crate) enum ServerDue {
    Move {
        partition: Partition,
        sequence: Sequence,
    },
    Load {
        partition: Partition,
        sequence: Sequence,
    },
    Consume {
        partition: Partition,
        sequence: Sequence,
        now: Moment,
    },
    Force {
        partition: Partition,
        sequence: Sequence,
    },
    Build {
        partition: Partition,
        sequence: Sequence,
    },
    Ask {
        partition: Partition,
        sequence: Sequence,
    },
}
