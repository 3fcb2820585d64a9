//! One server: what it has of each segment, a replica or the committed file, and what it has seen of the ideal state.
//! It moves each segment to what the ideal state asks, by the segment's metadata, loads the files that it wants, and
//! serves the pieces of a query's plan.
#![tactic(auto)]

mod downloads;
mod lasting;
mod lasting_told;
mod laws;
mod lists;
mod own_laws;
mod replicas;
mod resting;
mod seen;
mod server;
mod serving;
mod table;
mod transitions;

pub use lasting::{
    a_restart_is_lawful, a_server_asks_what_is_right, a_wanted_file_stands,
    each_call_of_a_replica_keeps_what_lasts, each_call_of_a_server_keeps_what_lasts,
    what_a_server_has_is_right, what_lasts_meets_the_calls, what_lasts_of_a_server_stays_true,
};
pub use lasting_told::{
    a_server_sends_what_is_right, a_server_steps_right, a_servers_replicas_step_right,
};
pub use laws::{
    a_refused_call_changes_nothing, a_store_fault_raises_the_count,
    a_target_is_what_the_ideal_state_asks, calls_over_told_stores_are_exact,
    each_list_has_what_its_test_tells,
};
pub use own_laws::{
    a_server_asks_what_is_its_own, a_servers_reads_see_lawfully,
    each_call_of_a_replica_keeps_its_servers_own, each_call_of_a_server_keeps_its_own,
    what_a_server_gives_is_right, what_is_a_servers_own_is_right_over_a_sound_past,
    what_is_a_servers_own_lasts_over_a_right_past, what_is_a_servers_own_stays_true,
};
pub use rt_entry::{ServeRefused, ServedRows, ServerRefused};
pub use server::Server;
