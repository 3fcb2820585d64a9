use super::dict::Dict;
use super::key::Key;
use rt_lists::Items;

/// A dictionary of the values of a list, and the id of each value of the list.
#[derive(Drop)]
pub struct Identified<K: Key> {
    /// The distinct values, ascending.
    pub dictionary: Dict<K>,
    /// For each place of the list the id of the value there.
    pub ids: Items<u32>,
}
