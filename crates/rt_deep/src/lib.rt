//! The deep store: whole files by path, each written once.
//!
//! A committed segment is one file of the deep store. What stands at a path never changes: the same bytes may be put
//! again, other bytes are refused with both digests.
#![tactic(auto)]

mod deep_put;
mod deep_store;
mod laws;
mod memory_deep;
mod refused;
mod told_laws;

pub use deep_put::DeepPut;
pub use deep_store::DeepStore;
pub use laws::{
    a_path_has_one_file, answers_were_seen, calls_of_a_told_deep_store_are_exact,
    what_was_put_stays, what_was_seen_stays_seen,
};
pub use memory_deep::MemoryDeep;
pub use refused::DeepRefused;
pub use told_laws::{
    a_fault_raises_the_count, a_refusal_puts_nothing, what_told_answers_show, what_told_calls_leave,
};
