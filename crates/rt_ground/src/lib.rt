//! The ground that threads share: a store, a deep store and a stream, each behind a lock of its own.
//!
//! A caller holds a front of each of the three histories, so what it has seen can be compared with what others have seen,
//! and its own writes stand in each history once, in its order, behind all that it had seen. Whenever the store's lock is
//! free its history is lawful, whatever the threads do.
//!
//! The three values behind the locks can be founded and called without a lock too, by one who holds chronicle and fronts:
//! their contracts say what each call does to the history, and the shared calls stand on them. The value of a ground is
//! reached by its lock alone.
#![tactic(auto)]

mod appended;
mod blanks;
mod caller;
mod deep_value;
mod ground;
mod locked;
mod naming;
mod noted;
mod register;
mod shared_deep;
mod shared_store;
mod shared_stream;
mod store_value;
mod stream_value;

pub use appended::Appended;
pub use blanks::Blanks;
pub use caller::Caller;
pub use deep_value::DeepValue;
pub use ground::Ground;
pub use naming::Naming;
pub use shared_deep::SharedDeep;
pub use shared_store::SharedStore;
pub use shared_stream::SharedStream;
pub use store_value::StoreValue;
pub use stream_value::StreamValue;
