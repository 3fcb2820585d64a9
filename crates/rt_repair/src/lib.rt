//! The repair of a partition, which goes on where no committer did, and the retiring of its oldest segments.
//!
//! Each lists the partition's metadata, reads the ideal state, and then makes one write at most, at the versions that it
//! read: one call of the store a step.
#![tactic(auto)]

mod decided;
mod lasting;
mod laws;
mod read_node;
mod repair;
mod repair_step;
mod retired;
mod retirement;
mod retiring;

pub use decided::decide;
pub use lasting::{
    a_repair_keeps_the_past_right, a_retirement_keeps_the_past_right, every_partition_can_settle,
    every_partition_settles_alone, what_begins_lasts, what_is_remembered_lasts,
    what_lasts_is_ready,
};
pub use laws::{
    a_repair_alone_does_what_it_decides, a_repair_sets_what_changes, a_step_commits_nothing,
    a_told_repair_is_exact, a_told_retirement_is_exact, repairs_alone_converge, repairs_converge,
    what_a_step_sets_is_counted, what_begins_is_ready, what_is_kept_decides_as_the_list,
};
pub use read_node::ReadNode;
pub use repair::{Repair, RepairStage};
pub use repair_step::RepairStep;
pub use retired::retire;
pub use retirement::{Retire, RetireStage};
pub use retiring::{RetireStep, Retiring};
