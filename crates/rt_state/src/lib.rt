//! The state of a whole cluster in one record, and which events can happen in it.
//!
//! A method for each event says what it costs, or why it can't happen. What the event does is stated here too, and which states
//! are safe; that each event keeps a state safe is shown above, where all events stand together.
#![tactic(auto)]

mod clock;
mod cost;
mod counts;
mod finding;
mod jobs;
mod lives;
mod messages;
mod queries;
mod repairs;
mod replicas;
mod requests;
mod room;
mod servers;
mod shows;
mod state;
mod stream;

pub use cost::Cost;
pub use counts::Counts;
pub use state::State;
