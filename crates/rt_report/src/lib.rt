//! The texts of a report, a line for each event, macro or line beside the events.
//!
//! A line begins with a word, and then says what the event is about and what came of it. The files are those of
//! the table of lines in `docs/rules/scripts.md`.
#![tactic(auto)]

mod broker_texts;
mod further_texts;
mod heads;
mod job_texts;
mod macro_texts;
mod message_texts;
mod node_texts;
mod outcome_line;
mod pending_texts;
mod rehearsal_texts;
mod repair_texts;
mod replica_texts;
mod shown_texts;
mod subject;
mod words;

pub use broker_texts::{write_answer, write_noquery};
pub use further_texts::{
    write_forced, write_held, write_hybrid, write_latest, write_nooffline, write_offline,
    write_paused, write_resumed,
};
pub use macro_texts::{write_end, write_exchanged, write_filled, write_settled};
pub use outcome_line::write_outcome;
pub use pending_texts::write_pending;
pub use rehearsal_texts::{
    write_at, write_nopeer, write_noplan, write_peer, write_plan, write_rehearsed,
};
pub use shown_texts::write_stored;
