use thiserror::Error;

/// The one answer of a source or a sink whose outside failed. It says no more than that: the count of
/// faults of the object that answered it has risen.
#[derive(Clone, Copy, Debug, PartialEq, Eq, Error)]
#[error("the outside failed")]
pub struct Failed;
