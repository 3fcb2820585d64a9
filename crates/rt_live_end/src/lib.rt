//! What is true of a running cluster once its nodes have ended and were joined: every file, every committed entry,
//! every piece that was served and every answer is right over the one history of each of its stores. All of it is laws
//! over what the nodes can say by themselves.
#![tactic(auto)]

mod ended;
mod headline;
mod joining;
mod right;

pub use ended::what_stands_is_a_nodes_own;
pub use headline::a_run_that_ends_rightly_leaves_nothing_out;
pub use joining::{
    all_numbers_are_met, the_parts_are_had_in_order, what_the_broker_was_told_was_given,
    what_was_accepted_was_sent, what_was_met_is_known,
};
pub use right::what_has_ended_is_right;
