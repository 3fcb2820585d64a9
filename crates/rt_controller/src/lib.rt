//! The controller of a table: it answers the requests of replicas by the completion machines of their segments, and commits
//! segments by jobs, one call of a store a step.
//!
//! A controller that doesn't believe that it leads answers nothing else. What it read it keeps: the store ties it to the
//! present by the version at which each write is made.
#![tactic(auto)]

mod answers;
mod controller;
mod handled;
mod lasting;
mod laws;
mod own_laws;
mod requests;
mod segment_machine;
mod starting;
mod working;

pub use controller::Controller;
pub use handled::{Handled, JobRefused};
pub use lasting::{
    a_committing_machine_has_its_job, a_job_keeps_the_past_right, a_request_keeps_the_past_right,
    a_request_over_a_past, a_step_over_a_past, a_timely_commit_end_starts_its_job,
    what_lasts_is_ready, what_lasts_stays_true, what_needs_no_store_keeps_what_lasts,
};
pub use laws::told_calls_are_exact;
pub use own_laws::{
    a_commit_job_starts_at_its_machine_alone, a_controller_answers_what_it_saw,
    a_controller_puts_what_it_took,
};
pub use segment_machine::SegmentMachine;
