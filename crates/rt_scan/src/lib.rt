//! Scans: which rows of a segment a query takes, and the groups of those rows.
//!
//! The sets of rows that pass the tests on columns are joined as the predicate says, and each row that is left is added to its
//! group.
#![tactic(auto)]

mod column_table;
mod filling;
mod group_ids;
mod grouping;
mod index_by_id;
mod key_test;
mod laws;
mod matching;
mod scanning;
mod skipping;
mod standing;
mod summaries;
mod summarized_segment;
mod telling;

pub use filling::scan_as;
pub use laws::{skipped_filled_rows_fail, skipped_rows_fail};
pub use scanning::{scan, scan_below};
pub use skipping::skips;
pub use summarized_segment::SummarizedSegment;
