use rt_base::Range;
use rt_lists::Items;
use rt_schema::Row;

/// What a server holds of a piece: the range of offsets, and the rows there, in order.
#[derive(Drop)]
pub struct ServedRows {
    pub range: Range,
    pub rows: Items<Row>,
}
