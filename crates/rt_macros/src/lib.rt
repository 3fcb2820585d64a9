//! What a cluster does in several events, one after the other: events that are gone on with, and the four macros.
//!
//! A macro makes its events of the worlds that it goes through. What comes of several events is a relation of two worlds,
//! which each function's clause names; no more is done than it says.
#![tactic(auto)]

mod acting;
mod exchanging;
mod filling;
mod laws;
mod outcomes;
mod querying;
mod resting;
mod settling;

pub use acting::{act, apply, attempt, happen, pass, produce};
pub use exchanging::{Exchanged, exchange};
pub use filling::fill;
pub use laws::the_numbers_of_settle_are;
pub use outcomes::{Delivered, Replied};
pub use querying::query;
pub use settling::{BATCH, MOST_ROUNDS, settle, waits};
