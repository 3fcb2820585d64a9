/// An entry of a history.
#[derive(Drop)]
pub struct Entry<T> {
    /// The first number of the front for which it was added.
    pub front: u64,
    /// How many entries that front had seen before.
    pub told: u64,
    /// What was added.
    pub what: T,
}
