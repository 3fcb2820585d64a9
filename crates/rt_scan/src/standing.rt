use std::cmp::Ordering;

/// How the least and the greatest value of a column stand to a literal.
#[derive(Clone, Copy)]
pub(crate) struct Standing {
    pub(crate) least: Ordering,
    pub(crate) greatest: Ordering,
}
