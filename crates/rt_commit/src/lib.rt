//! The jobs of a controller: what commits a segment, and what turns an instance OFFLINE, one call of a store a step.
//!
//! A job keeps what it read and what it wrote: the store ties it to the present by the version at which each write is made.
#![tactic(auto)]

mod assignment;
mod changes;
mod check_step;
mod done_step;
mod found_versions;
mod ideal_steps;
mod job;
mod job_steps;
mod laws;
mod next_step;
mod stepped;
mod work;

pub use assignment::Assignment;
pub use found_versions::FoundVersions;
pub use job::{Job, JobStage, step_at};
pub use laws::{
    a_job_replies_by_its_first_failure, a_job_sets_what_it_changes, a_job_writes_what_it_has_read,
    jobs_end,
};
pub use stepped::Stepped;
pub use work::Work;
