//! The limits of what the product takes. Each stands here once, and is cited by its name.

/// The columns of a schema. Two bytes of a segment's file count them.
pub const MOST_COLUMNS: usize = 256;

/// The bytes of a column's or a table's name, so that names of segments and paths stay short.
pub const LONGEST_NAME: usize = 128;

/// The rows of a segment, of a row threshold, of a query's `LIMIT`. What is sealed or answered at once
/// fits in memory.
pub const MOST_ROWS: u32 = 1_000_000;

/// The bytes of a message, and so of a text in a row.
pub const LONGEST_MESSAGE: usize = 65_536;

/// The bytes of a query's text.
pub const LONGEST_QUERY: usize = 65_536;

/// The greatest number of a partition, a server, a controller or a query in a script, and the last
/// sequence of a partition: one below the last number of 32 bits, so that one past it still fits.
pub const LAST_NUMBER: u32 = 4_294_967_294;

/// The last moment, in milliseconds since 1970: the end of the year 9999, the last that a civil date
/// of four digits can name.
pub const LAST_MOMENT: u64 = 253_402_300_799_999;

/// The servers of a cluster.
pub const MOST_SERVERS: u32 = 16;

/// The controllers of a cluster.
pub const MOST_CONTROLLERS: u32 = 4;

/// The partitions of a table.
pub const MOST_PARTITIONS: u32 = 64;

/// The replicas of a segment; it has no more than there are servers, either.
pub const MOST_REPLICATION: u32 = 8;

/// The bytes of a script.
pub const MOST_INPUT: usize = 67_108_864;

/// The events of a run, a macro counted by what it expands to.
pub const MOST_EVENTS: u64 = 4_000_000;

/// The bytes of uploads in all requests of a run together.
pub const MOST_SENT: u64 = 1_073_741_824;

/// The queries that are asked and unanswered at once.
pub const MOST_QUERIES: usize = 1_000;

/// The entries of all ideal states of a run's history together.
pub const MOST_STORED: u64 = 67_108_864;
