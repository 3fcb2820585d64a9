//! The laws of what lies ahead of replicas that ask: an answer puts a replica off, or leaves less ahead of it. They are about
//! definitions alone, and stand on functions that do nothing.
#![tactic(auto)]

mod laws;

pub use laws::{
    a_machine_that_has_waited_picks_or_ends, a_machine_waits_for_its_committer,
    a_partition_has_at_most_as_many_commits_as_messages,
    a_step_of_the_ideal_state_adds_no_more_than_its_replicas,
    an_answer_makes_wait_or_leaves_less_ahead_still, an_answer_puts_off_or_leaves_less_ahead,
    replicas_are_put_off_or_leave_less_ahead, settle_ends_where_nobody_is_put_off,
    settle_ends_where_nobody_is_put_off_or_done, settle_ends_where_nobody_is_told_to_hold,
};
