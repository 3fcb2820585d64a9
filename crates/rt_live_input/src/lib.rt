//! The input of a running cluster: its header, how its nodes are disturbed, the rows that come to the stream and the
//! queries that are asked.
#![tactic(auto)]

mod chaos;
mod entry;
mod input;
mod reading;

pub use chaos::{Chaos, Crash};
pub use input::Input;
pub use reading::read_input;
