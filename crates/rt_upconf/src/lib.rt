//! The upsert settings of a table and its time column, as Pinot writes them in the schema's JSON and the table's.
#![tactic(auto)]

mod object;
mod time_column;
mod upsert_config;
mod upsert_reader;
mod upsert_refused;

pub use time_column::read_time_column;
pub use upsert_config::UpsertConfig;
pub use upsert_reader::read_upsert;
pub use upsert_refused::UpsertRefused;
