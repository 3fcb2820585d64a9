use rt_base::Sequence;

/// What a retirement does, by what it read.
#[derive(Clone, Copy, Debug, PartialEq, Eq)]
pub enum Retiring {
    Nothing,
    /// The segment leaves the ideal state.
    Remove(Sequence),
    /// The segment's node is deleted.
    Delete(Sequence),
}

/// What a step of a retirement did. All but the first two end it.
#[derive(Clone, Copy, Debug, PartialEq, Eq)]
pub enum RetireStep {
    Listed,
    IdealRead,
    /// The segment left the ideal state, which has this version.
    Removed(Sequence, u64),
    /// The segment's node was deleted.
    Deleted(Sequence),
    /// What was read had changed.
    Changed { expected: u64, found: u64 },
    /// The segment's node, which was read, was no longer there.
    Gone(Sequence),
    Nothing,
    /// The store failed.
    Failed,
}
