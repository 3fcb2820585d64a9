//! What a server has of one segment: a replica, or the committed segment with its file or wanting it. What becomes of it
//! by the segment's target and metadata, how the wanted file is loaded, and what is served of it.
#![tactic(auto)]

mod downloads;
mod entry;
mod refused;
mod replicas;
mod served_rows;
mod serving;
mod transitions;

pub use entry::{CommittedSegment, Entry};
pub use refused::{ServeRefused, ServerRefused};
pub use served_rows::ServedRows;
pub use transitions::{is_due, metadata_in};
