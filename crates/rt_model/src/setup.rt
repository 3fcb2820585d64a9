use rt_base::Moment;
use rt_schema::{Schema, Table};

/// What a cluster is made of.
#[derive(Drop, PartialEq, Eq)]
pub struct Setup {
    pub schema: Schema,
    pub table: Table,
    pub servers: u32,
    pub controllers: u32,
    pub partitions: u32,
    /// The first moment.
    pub start: Moment,
    /// How long the repair leaves a segment alone, in milliseconds.
    pub grace: u64,
    /// How long a committed segment is kept, in milliseconds; none is retired where there is no number.
    pub retention: Option<u64>,
    /// The format of new segment files, 1 or 2.
    pub format: u8,
}
