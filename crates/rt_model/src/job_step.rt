use crate::Reply;

/// The steps of a controller's job. A commit job has all of them, in this order; a job that turns an instance
/// OFFLINE has the last two alone.
#[derive(Clone, Copy, Debug, PartialEq, Eq)]
pub enum StepName {
    /// The uploaded file is read and its header compared.
    Check,
    /// The segment's metadata is set to Done.
    Done,
    /// The next segment's metadata is created.
    Next,
    IdealRead,
    IdealSet,
}

/// What came of a job's step.
#[derive(Clone, Copy, Debug, PartialEq, Eq)]
pub enum StepOutcome {
    /// It was done.
    Fine,
    /// The next segment had been created before.
    Exists,
    /// The node no longer had the version that was read.
    Changed { expected: u64, found: u64 },
    /// There was no node to be set.
    NoNode,
    /// The file was not the segment's.
    Bad,
    /// The ideal state needs no change.
    Same,
    /// The segment's node was deleted, so that the next one had been created before.
    Gone,
    /// A store failed.
    Failed,
}

/// A step of a job, what came of it, and the reply that it ends the job with.
#[derive(Drop, PartialEq, Eq)]
pub struct JobStep {
    pub step: StepName,
    pub outcome: StepOutcome,
    pub reply: Option<Reply>,
}
