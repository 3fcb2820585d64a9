//! Hybrid tables: offline rows, pushed as files, beside the realtime rows.
//!
//! A time boundary, one day before the greatest offline time, decides on which side a row counts: an offline row at or before it,
//! a realtime row past it.
#![tactic(auto)]

mod batch;
mod hybrid;
mod hybrid_refused;
mod laws;
mod reading;
mod rows;
mod scanning;
mod sealing;
mod timed;
mod times;

pub use hybrid::Hybrid;
pub use hybrid_refused::HybridRefused;
pub use laws::{
    a_column_is_kept_where_some_object_has_it, each_time_is_on_one_side,
    merged_sides_are_the_hybrid_rows, the_greatest_time_is_of_a_row,
};
