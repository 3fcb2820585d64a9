//! The store of the cluster: named nodes, each with a version, and the list of all writes.
//!
//! Nodes write by create, compare-and-set and delete. A set names the version that its writer read, so that a
//! writer that was overtaken is refused: what a node remembers may be old, and only the store ties it to the
//! present.
#![tactic(auto)]

mod contents;
mod index;
mod laws;
mod memory_store;
mod refused;
mod store;
mod told_laws;

pub use laws::{
    a_cluster_starts_assigned, a_history_has_one_beginning, answered_writes_stand_last,
    answers_were_seen, calls_of_a_told_store_are_exact, lawful_calls_keep_the_history_lawful,
    refusals_are_of_no_effect, what_was_seen_stays_seen,
};
pub use memory_store::MemoryStore;
pub use refused::StoreRefused;
pub use store::Store;
pub use told_laws::{
    a_fault_raises_the_count, a_refusal_writes_nothing, what_told_answers_show,
    what_told_calls_leave,
};
