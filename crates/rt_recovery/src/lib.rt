//! The laws of recovery: what was started anew comes to rest. They are about definitions alone, and stand on functions that do nothing.
#![tactic(auto)]

mod laws;

pub use laws::{
    every_cluster_heals, mending_leaves_no_need_of_repair,
    retirements_up_to_nothing_leave_none_half_done, segments_without_entries_are_old,
    settle_ends_after_a_fresh_start, what_is_started_anew_is_fresh,
    what_was_started_anew_is_answered_whole,
};
