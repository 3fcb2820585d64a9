//! What a node of the store is read as: the metadata of a segment, or the entries of the ideal state.
//!
//! A node of another kind is read as metadata of no name and as no entries, so that who knows by the node's key what it is
//! need not ask.
#![tactic(auto)]

mod entries;
mod metadata;

pub use entries::{entries_of, state_of};
pub use metadata::{end_of, meta_of, no_meta, seen_meta_of, start_of};
