//! A history of entries that only grows, shared by many callers.
//!
//! Whoever holds the keeper of a history adds to it. A caller holds a front: what it has seen is a beginning of the
//! history, and no entry that carries one of its numbers stands behind that beginning. So what callers have seen can
//! be compared, and each finds its own entries once and in its own order.
#![tactic(auto)]

mod blank;
mod chronicle;
mod entry;
mod front;
mod keeper;
mod rule;

pub use blank::{Blank, found};
pub use chronicle::Chronicle;
pub use entry::Entry;
pub use front::Front;
pub use keeper::Keeper;
