//! The latest row of each key of an upsert table, over rows that come and go in any order.
#![tactic(auto)]

mod add_refused;
mod held;
mod laws;
mod place;
mod rank;
mod ranked_rows;
mod reading;
mod upsert;

pub use add_refused::AddRefused;
pub use laws::{
    each_key_has_a_latest_row, no_key_has_two_latest_rows, what_is_taken_out_leaves_no_trace,
};
pub use place::Place;
pub use upsert::Upsert;
