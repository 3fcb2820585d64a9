//! What only grows, and what is right of it: the stream's log, the store's history, the deep store's files, and the
//! messages between replicas and controllers. Each fact that lasts is stated over a past, and stays true of a later one.
#![tactic(auto)]

mod laws;

pub use laws::{
    a_past_begins, a_past_grows_by_a_put, a_past_grows_by_a_reply, a_past_grows_by_a_request,
    a_past_grows_by_a_write_call, a_past_grows_by_files, a_past_grows_by_messages,
    a_past_grows_by_writes, a_path_has_one_upload, a_right_past_is_sound,
    a_segment_without_entries_is_the_lowest, a_stored_file_is_named,
    an_upload_has_its_segments_name, drawn_numbers_are_fresh, entries_reach_the_last_segment,
    every_file_is_right, growth_goes_on, growth_keeps_all, ideal_steps_keep_entries_right,
    what_is_right_stays_right,
};
