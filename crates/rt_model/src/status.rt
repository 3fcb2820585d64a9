use crate::Commit;

/// How far a segment is.
#[derive(Drop, PartialEq, Eq)]
pub enum Status {
    /// It consumes.
    InProgress,
    /// It was committed.
    Done(Commit),
    /// It was given up; the next segment starts where this one started.
    Abandoned,
}
