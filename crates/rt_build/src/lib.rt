//! Sealing: the rows of a consuming segment below an end become a sealed segment.
//!
//! The distinct values of each column are sorted once, and the ids are renumbered; the rows stay as they
//! are. Values that only rows at or past the end have are left out.
#![tactic(auto)]

mod sealed_columns;
mod sealing;
mod sorted;
mod sorted_values;

pub use sealing::{seal, seal_as};
