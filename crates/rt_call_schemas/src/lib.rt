//! The calls that read schemas, table settings and rows.
#![tactic(auto)]

mod schemas;
mod tables;
mod values;

pub use schemas::{columns, message, row, schema, settings, table};
pub use tables::{KnownSchema, Tables};
pub use values::{value_in, write_row};
