//! What a line of a script says behind the header: an event, a text that is no query, a macro, or what stands beside
//! the events.
//!
//! A line begins with its command, a word; what follows it is read by the command. The files are those of the
//! table of lines in `docs/rules/scripts.md`.
#![tactic(auto)]

mod broker_lines;
mod command;
mod further;
mod further_lines;
mod line;
mod macro_lines;
mod message_lines;
mod node_lines;
mod outside_lines;
mod query_text;
mod replica_lines;
mod words;

pub use further::Further;
pub use line::{Line, Macro, read_line};
pub use query_text::{QueryText, read_query};
