//! A script in, its report out.
//!
//! The whole input is read first. Each line behind the header is then read, and does what it says. What came of it is
//! written as one line. A generated run makes its events by itself.
#![tactic(auto)]

mod beginning;
mod generated_report;
mod generated_rows;
mod generating;
mod laws;
mod missing;
mod one_report;
mod pausing;
mod play_end;
mod player;
mod reader;
mod running;
mod settled;
mod some_report;
mod telling;
mod texts;
mod views;
mod words;

pub use laws::a_script_is_a_run;
pub use missing::{
    a_query_line_misses_what_no_server_serves, a_view_misses_what_no_server_serves,
    an_answer_misses_only_what_was_refused,
};
pub use one_report::a_script_has_one_report;
pub use pausing::a_script_is_paused_from_pause_to_resume;
pub use play_end::PlayEnd;
pub use player::play;
pub use reader::{
    each_answer_counts_what_was_produced, the_text_of_an_answer_has_one_reading,
    the_text_of_an_answer_tells_its_ranges, the_text_of_an_answer_tells_its_rows,
    what_is_shown_to_have_ended_stays, what_was_committed_stays,
};
pub use settled::a_settle_leaves_no_server_out;
pub use some_report::{a_generated_run_is_never_refused, a_script_has_a_report};
pub use telling::{
    the_text_of_a_node_tells_it, the_text_of_an_event_tells_what_is_noted,
    the_text_of_an_exchange_tells_what_is_noted,
};
pub use texts::the_parts_of_a_text_are_the_text;
pub use views::no_row_of_a_view_is_left_out;
