//! The steps of the ideal state: which instance is asked to consume, to serve or to leave a segment, and how a
//! commit, a stop, a repair and a retirement change that.
//!
//! No step changes the state that it is given: each makes the next one, which a node then offers to the store.
#![tactic(auto)]

mod laws;
mod lookup;
mod places;
mod steps;
mod written;

pub use laws::{
    a_text_has_each_entry_once, steps_change_named_entries_alone, steps_keep_the_order,
    steps_set_what_they_name,
};
pub use lookup::{has_entry, mode};
pub use places::add_segment;
pub use steps::{add_consuming, comes_next, commit_step, remove_segment, set_offline};
pub use written::text;
