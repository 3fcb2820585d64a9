//! The grammar of queries: from the tokens of a text to the parts of a query.
#![tactic(auto)]

mod call;
mod columns;
mod items;
mod laws;
mod nested;
mod nesting;
mod parts;
mod reader;
mod sql_refused;
mod stack;
mod state;
mod steps;
mod stop;
mod terms;
mod test;
mod testing;

pub use columns::is_column;
pub use laws::{deep_is_refused, faults_are_first, what_is_read_is_derived};
pub use parts::{GroupAt, ItemAt, KeyAt, Parts};
pub use reader::read;
pub use sql_refused::SqlRefused;
