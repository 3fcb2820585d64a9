//! The sorted dictionary of a column.
//!
//! A dictionary holds the distinct values of a column in ascending order. A value's id is its place
//! there, so ids ascend as the values do, and a range of values is a range of ids. Keys are ordered
//! by [`Key::below`], which never ranks a key below itself and ranks any two different keys one way.
#![tactic(auto)]

mod dict;
mod edge;
mod identified;
mod key;
mod placed;

pub use dict::Dict;
pub use edge::Edge;
pub use identified::Identified;
pub use key::Key;
