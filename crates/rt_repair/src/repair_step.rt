use rt_base::Sequence;

/// What a step of a repair did. All but the first two end it.
#[derive(Clone, Copy, Debug, PartialEq, Eq)]
pub enum RepairStep {
    Listed,
    IdealRead,
    /// The segment was created.
    Created(Sequence),
    /// The segment had been created before.
    Exists(Sequence),
    /// The segment was given up.
    Abandoned(Sequence),
    /// The ideal state was set, and has this version.
    IdealSet(u64),
    /// What was read had changed.
    Changed { expected: u64, found: u64 },
    /// The segment's node, which was read, was no longer there.
    Gone(Sequence),
    Nothing,
    /// The store failed.
    Failed,
}
