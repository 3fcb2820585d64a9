//! A whole input, the lines of a script, their words and numbers, its header, the faults of a run, and the
//! text of an answer.
#![tactic(auto)]

mod answer;
mod cluster;
mod header;
mod header_lines;
mod json;
mod json_text;
mod laws;
mod line_reason;
mod lines;
mod numeral;
mod parts;
mod play_fault;
mod reading;
mod schema_line;
mod table_lines;

pub use answer::answer_text;
pub use cluster::next_field;
pub use header::{read_cluster_line, read_header, read_tables};
pub use json::write_comma;
pub use laws::cluster_lines_are_what_they_spell;
pub use line_reason::LineReason;
pub use lines::Lines;
pub use numeral::{is_numeral, number_up_to, word_number};
pub use parts::{after_prefix, field, part_at};
pub use play_fault::PlayFault;
pub use reading::{ReadStop, read_all};
pub use table_lines::TableLines;
