//! The nodes of a running cluster take their turns, each in a thread of its own, until the run ends.
#![tactic(auto)]

mod broker_turns;
mod controller_turns;
mod producer_turns;
mod repairer_turns;
mod run;
mod running;
mod server_turns;
mod turns;

pub use running::run_all;
