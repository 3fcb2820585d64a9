//! The calls of the nodes' parts: what a repair and a retirement decide, a broker's plan, rebalance plans, upsert tables
//! and their settings, a replica, and how a committed segment's file is fetched, loaded and served.
#![tactic(auto)]

mod committed;
mod entries;
mod fetches;
mod given_peer;
mod listed_words;
mod pieces;
mod plans;
mod rebalances;
mod repairs;
mod replica_calls;
mod replicas;
mod reply_words;
mod row_words;
mod upsert_configs;
mod upsert_table;
mod upserts;

pub use committed::write_headers;
pub use entries::entry;
pub use fetches::fetch;
pub use listed_words::write_segment;
pub use pieces::{piece_in, write_served};
pub use plans::plan;
pub use rebalances::rebalance;
pub use repairs::{decide, retire};
pub use replicas::consumer;
pub use reply_words::status_in;
pub use upsert_configs::upsert_config;
pub use upserts::upsert;
