ghost use Rattle.std.specs.Prelude.{◌≡◌};

use rt_schema::{Schema, Table};
use std::marker::Model;

/// What the schema line and the table line of a script say, with their texts.
#[derive(Drop)]
pub struct TableLines<'a> {
    pub(crate) schema: Schema,
    pub(crate) table: Table,
    pub(crate) schema_text: &'a str,
    pub(crate) table_text: &'a str,
    pub(crate) line: u64,
}

impl<'a> Model for TableLines<'a> {
    ghost use Rattle.rt_lines.specs.Header.{TableSaid};

    ghost Value = { TableSaid };

    ghost view = { λ a. record {
      schema = a.schema;
      table = a.table;
      schema_text = a.schema_text.now;
      table_text = a.table_text.now;
      line = a.line;
    } };
}

impl<'a> TableLines<'a> {
    /// The schema.
    pub fn schema(&self) -> &Schema
        ensures { result.now ≡ self.now.schema }
    {
        &self.schema
    }

    /// The table.
    pub fn table(&self) -> &Table
        ensures { result.now ≡ self.now.table }
    {
        &self.table
    }

    /// The text behind `schema`.
    pub fn schema_text(&self) -> &'a str
        ensures { result.now ≡ self.now.schema_text }
    {
        self.schema_text
    }

    /// The text behind `table`.
    pub fn table_text(&self) -> &'a str
        ensures { result.now ≡ self.now.table_text }
    {
        self.table_text
    }

    /// The number of the table line, counted from 1.
    pub fn line(&self) -> u64
        ensures { result ≡ self.now.line }
    {
        self.line
    }
}
