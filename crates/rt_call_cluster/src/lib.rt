//! The calls of the cluster's parts: the completion machine, the ideal state, metadata, placement and the store.
#![tactic(auto)]

mod cluster_words;
mod creations;
mod ideals;
mod machines;
mod metas;
mod reactions;
mod setups;
mod store_words;
mod stores;

pub use cluster_words::{meta_in, state_in};
pub use ideals::{ideal, mode};
pub use machines::{machine, reason_in};
pub use metas::{first_meta, meta, replica, replicas};
pub use setups::{KnownSetup, KnownTable, TableTexts};
pub use stores::store;
