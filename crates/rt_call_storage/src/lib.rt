//! The calls of the parts that know nothing of tables: dictionaries, packed ids, posting lists and row sets, names, the
//! stream, the deep store, and the ways in and out of memory.
#![tactic(auto)]

mod deep_files;
mod dictionaries;
mod edges;
mod key_word;
mod names;
mod packing;
mod row_sets;
mod streams;

pub use deep_files::deep;
pub use dictionaries::dict;
pub use edges::{clock, gate, sink, source};
pub use names::{format, minute, name};
pub use packing::{get, pack, unpack, width};
pub use row_sets::{docset, postings};
pub use streams::stream;
