//! What a running cluster writes: its answers, how far each partition is committed, and the journal.
//!
//! The journal shows what no answer does: each write of the store, each request with its answer, the count of each
//! queue, and the answers that the broker gave on the way.
#![tactic(auto)]

mod journal;
mod lines;
mod output;
mod queues;

pub use journal::{Heard, Journal, Queue, write_journal};
pub use output::write_output;
