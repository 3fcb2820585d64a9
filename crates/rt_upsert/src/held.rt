use rt_schema::Row;

/// A row as it is held, with the number of its key.
#[derive(Drop)]
pub(crate) struct Held {
    pub(crate) row: Row,
    /// The place of the row's key values among all that were ever added.
    pub(crate) key: usize,
}
