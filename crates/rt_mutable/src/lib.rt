//! The rows of a consuming segment, kept by columns.
//!
//! [`MutableSegment`] means its rows, each with its message's offset. It keeps no rows: each column has
//! its distinct values in the order of their first arrival ([`Arrivals`]) and the id of each row's value,
//! and an indexed column has the rows of each value too.
#![tactic(auto)]

mod arrivals;
mod column_key;
mod column_values;
mod columns;
mod laws;
mod mutable_column;
mod mutable_segment;
mod room;
mod row_lists;

pub use arrivals::Arrivals;
pub use column_key::ColumnKey;
pub use column_values::ColumnValues;
pub use laws::{ids_lead_to_values, rows_of_a_schema_fit};
pub use mutable_column::MutableColumn;
pub use mutable_segment::MutableSegment;
