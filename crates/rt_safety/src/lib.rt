//! The laws of clusters: of each event, of every run, and of every world that a run comes to. They are about definitions
//! alone, and stand on functions that do nothing.
#![tactic(auto)]

mod laws;
mod laws_of_absence;
mod laws_of_events;
mod laws_of_limits;
mod laws_of_runs;
mod laws_of_worlds;

pub use laws::{
    a_commit_end_in_time_opens_its_commit, an_open_commit_goes_on_until_it_ends,
    every_event_keeps_a_world_safe, the_first_world_is_safe,
};
pub use laws_of_absence::{
    an_absent_node_alone_fails_by_4, without_a_retention_nothing_is_retired,
};
pub use laws_of_events::a_due_event_can_happen;
pub use laws_of_limits::{each_event_has_its_own_limits, the_counts_of_a_run_are_right};
pub use laws_of_runs::{
    a_run_appends_what_is_produced, a_run_only_adds, every_world_of_every_run_is_safe,
    no_upload_is_bad_and_no_sender_a_stranger,
};
pub use laws_of_worlds::{
    every_answer_is_right, files_and_messages_are_right, no_download_meets_a_bad_file,
    partitions_are_chained_and_tiled, servers_have_the_rows_of_the_stream,
};
