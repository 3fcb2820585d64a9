//! Queries, as Pinot writes them in SQL, read from their text.
#![tactic(auto)]

mod before;
mod kinds;
mod parser;
mod rules;

pub use parser::parse;
pub use rt_grammar::{SqlRefused, deep_is_refused, faults_are_first, what_is_read_is_derived};
