//! The metadata of a segment through its life: in progress from its first offset, then committed or given up; and
//! the text that is kept of it.
//!
//! No value is changed in place: each call makes the next one, which a node then offers to the store.
#![tactic(auto)]

mod ending;
mod starting;
mod written;

pub use ending::{abandoned_of, done_of};
pub use starting::first;
pub use written::text;
