//! Names of segments: `table__partition__sequence__minute`.
//!
//! The minute is the UTC minute in which the segment was made, as `YYYYMMDDTHHmmZ`. Neither a number
//! nor a minute has an underscore, so a name is split at its last three `__`, and a table's name may
//! have `__` itself.
#![tactic(auto)]

mod minute;
mod name;
mod numeral;
mod parts;
mod pieces;
mod table;

pub use minute::minute_of;
pub use name::{NameRefused, SegmentName};
pub use table::is_table_name;
