//! Schemas, table settings and rows, as Pinot writes them in JSON.
#![tactic(auto)]

mod column;
mod copied;
mod field;
mod field_reader;
mod flat_reader;
mod index_config;
mod laws;
mod object;
mod plain_reader;
mod row;
mod row_reader;
mod schema;
mod schema_reader;
mod schema_refused;
mod setting;
mod spare;
mod table;
mod table_reader;
mod value;

pub use column::{Column, Kind, Role};
pub use laws::times_are_what_they_spell;
pub use row::Row;
pub use row_reader::{RowReader, read_row};
pub use schema::Schema;
pub use schema_reader::read_schema;
pub use schema_refused::SchemaRefused;
pub use table::Table;
pub use table_reader::read_table;
pub use value::Value;
