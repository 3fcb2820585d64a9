//! Pausing a cluster, and jobs that force its consuming segments to be committed.
//!
//! A pause stops no replica and changes no node: while it lasts, no replica begins to consume. The next segment of a
//! partition is created as ever.
#![tactic(auto)]

mod force_job;
mod laws;
mod pause;
mod replica_seen;

pub use force_job::ForceJob;
pub use laws::{
    a_job_that_names_none_has_ended, a_run_is_paused_until_it_resumes,
    no_replica_begins_while_paused,
};
pub use pause::Pause;
pub use replica_seen::ReplicaSeen;
pub use rt_model::ReplicaState as Stage;
