use rt_base::{Partition, Range, Sequence};
use rt_lists::Items;
use rt_schema::Value;

/// A cell of a result row: a column's, a least or a greatest value; a count or a sum; or nothing.
#[derive(Drop, PartialEq, Eq)]
pub enum Cell {
    Value(Value),
    Whole(i128),
    Null,
}

/// A result row: one cell for each item of the query.
#[derive(Drop, PartialEq, Eq)]
pub struct ResultRow {
    pub cells: Items<Cell>,
}

/// The answer of a query.
#[derive(Drop, PartialEq, Eq)]
pub struct Answer {
    /// The ranges that were aggregated, ascending by partition and start.
    pub ranges: Items<(Partition, Range)>,
    /// The segments that were not; a partition without a segment couldn't be routed.
    pub missing: Items<(Partition, Option<Sequence>)>,
    pub rows: Items<ResultRow>,
}
