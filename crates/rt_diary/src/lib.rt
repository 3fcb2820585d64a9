//! What a node did, as a list that contracts alone see.
//!
//! A diary is a history with one keeper and one front, in one value: so it grows at its end alone, what was noted
//! never changes, and it takes no memory but that of a count.
#![tactic(auto)]

mod diary;

pub use diary::Diary;
