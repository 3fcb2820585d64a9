use crate::Place;

/// How a held row stands among the rows of its key: by its comparison value, and where that ties by its place. Those of one
/// key lie together.
#[derive(Clone, Copy, PartialEq, Eq, PartialOrd, Ord)]
pub(crate) struct Rank {
    pub(crate) key: usize,
    pub(crate) compare: i64,
    pub(crate) place: Place,
}
