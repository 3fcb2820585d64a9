/// Why a predicate doesn't fit a schema.
#[derive(Clone, Copy, Debug, PartialEq, Eq)]
pub enum FilterRefused {
    /// The schema has no column of that name at that place.
    NoColumn,
    /// A literal isn't of the column's kind, or BOOLEAN is asked for an order.
    WrongType,
}
