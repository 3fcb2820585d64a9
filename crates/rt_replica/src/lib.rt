//! One replica of a consuming segment: it takes the stream's messages, reports to a controller, builds the segment's
//! file and commits it, or catches up, keeps or drops what it holds, as the controller answers.
#![tactic(auto)]

mod lasting;
mod laws;
mod own_laws;
mod replica;

pub use lasting::{
    a_replica_asks_what_is_right, each_step_keeps_what_lasts, what_lasts_stays_true,
};
pub use laws::{
    a_told_log_has_one_outcome, an_answer_to_another_number_changes_nothing,
    what_is_due_can_be_done, what_is_held_stays_held,
};
pub use own_laws::{
    a_replica_asks_what_is_its_own, what_is_its_own_is_kept,
    what_is_its_own_lasts_over_a_right_past, what_is_its_own_stays_true,
};
pub use replica::Replica;
pub use rt_consumer::{ReplicaDue, ReplicaRefused, takes_messages};
