/// What a controller does for a partition on its own.
#[derive(Clone, Copy, Debug, PartialEq, Eq)]
pub enum Chore {
    /// It mends what a controller left undone: a segment without its next one, or without its entry in the ideal state.
    Repair,
    /// It removes the lowest segment, where that is older than the table keeps its segments.
    Retire,
}
