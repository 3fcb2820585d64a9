use rt_schema::Schema;
use std::marker::Model;

/// What the schema line of a script says, with its text.
#[derive(Drop)]
pub(crate) struct SchemaLine<'a> {
    pub(crate) schema: Schema,
    pub(crate) text: &'a str,
}

impl<'a> Model for SchemaLine<'a> {
    ghost use Rattle.rt_lines.specs.Header.{SchemaSaid};

    ghost Value = { SchemaSaid };

    ghost view = { λ a. record { schema = a.schema; text = a.text.now } };
}
