//! The laws of a cluster that heals: what is whole once nothing is left to do. They are about definitions alone, and stand on
//! functions that do nothing.
#![tactic(auto)]

mod laws;

pub use laws::{
    a_batch_and_a_build_leave_less_to_do, a_partition_without_need_of_repair_goes_on,
    a_quiet_round_leaves_all_at_rest, a_replica_that_dropped_its_rows_is_out,
    a_round_leaves_all_servers_calm, a_transition_is_made_once, at_rest_a_query_is_answered_whole,
    at_rest_an_answer_is_whole, at_rest_each_instance_has_what_is_asked,
    at_rest_each_piece_is_served_whole, committed_segments_are_turned_online,
    each_replica_can_come_to_its_target, settle_ends_where_no_replica_asks,
    what_is_to_be_consumed_can_be,
};
