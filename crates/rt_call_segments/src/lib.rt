//! The calls of consuming and sealed segments.
#![tactic(auto)]

mod column_names;
mod consuming;
mod consuming_rows;
mod held_segments;
mod sealing;
mod segments;

pub use consuming::Consuming;
pub use consuming_rows::rows;
pub use held_segments::HeldSegments;
pub use segments::{sealed, segment};
