//! What a line of a script does, and what is reported of it.
//!
//! A line is an event, a macro or a further line. An event happens to the world; a macro makes events of the worlds that it
//! goes through; a further line reads the world, or has to do with what stands on the desk beside it. Each makes one text.
#![tactic(auto)]

mod counting;
mod desk;
mod forcing;
mod hybrid_lines;
mod latest;
mod laws;
mod macros;
mod passing;
mod rehearsal_lines;
mod saying;

pub use desk::Desk;
pub use laws::while_paused_no_replica_begins;
pub use macros::play_query;
pub use saying::play_said;
