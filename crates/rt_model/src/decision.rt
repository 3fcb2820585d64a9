use rt_base::{Offset, Sequence};

/// What the repair of a partition does, by what it read.
#[derive(Clone, Copy, Debug, PartialEq, Eq)]
pub enum Decision {
    Nothing,
    /// The segment is created in progress from this offset.
    Create(Sequence, Offset),
    /// The segment gets entries in the ideal state.
    AddToIdeal(Sequence),
    /// The segment is given up.
    Abandon(Sequence),
}
