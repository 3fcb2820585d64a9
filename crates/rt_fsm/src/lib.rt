//! The completion machine of a segment: it picks the one replica that commits the segment, and holds all others to
//! the offset at which that replica commits.
#![tactic(auto)]

mod laws;
mod machine;
mod reporters;

pub use laws::{
    a_commit_starts_at_its_committer_alone, commits_agree, commits_the_pick, no_late_job,
    offsets_stay_within, one_committer, one_job, stays_out, timely_commit_end,
};
pub use machine::Machine;
