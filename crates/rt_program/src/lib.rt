//! What the programs have in common: the words behind a program's name, and how a fault ends a program.
#![tactic(auto)]

mod ending;
mod words;

pub use ending::end;
pub use words::{slices_of, words_of};
