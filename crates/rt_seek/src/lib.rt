//! Columns of rows that are scanned: which rows of one have a value that passes a test, and what numbers rows have in one.
//!
//! A test is evaluated once for each distinct value of the column, and the ids that pass give the set of rows. The kind of a
//! column's values is asked for once for each page of rows.
#![tactic(auto)]

mod arrived_scalars;
mod column_test;
mod comparable;
mod consuming_column;
mod file_column;
mod held_scalars;
mod key_test;
mod row_sets;
mod scalars_by_id;
mod scan_column;
mod seeking;
mod truths;

pub use column_test::ColumnTest;
pub use comparable::Comparable;
pub use consuming_column::ConsumingColumn;
pub use file_column::FileColumn;
pub use row_sets::all_rows;
pub use scan_column::ScanColumn;
