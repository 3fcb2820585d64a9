/// The states of a replica of a segment.
#[derive(Clone, Copy, Debug, PartialEq, Eq)]
pub enum ReplicaState {
    InitialConsuming,
    CatchingUp,
    Holding,
    ConsumingToOnline,
    Retaining,
    Retained,
    Committing,
    Committed,
    Discarded,
}
