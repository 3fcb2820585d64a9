ghost use Rattle.std.specs.Prelude.{◌≡◌, ◌++◌, ◌==◌, ℕ, List, map, OnErr, OnOk, string_bytes};
ghost use Rattle.rt_lines.specs.Answer.{
  array_of,
  cell_text,
  comma_before,
  missing_text,
  range_text,
  row_text,
  value_text,
};

use crate::json_text::write_text;
use rt_base::{Partition, Range, Sequence};
use rt_model::{Cell, ResultRow};
use rt_schema::Value;
use std::alloc::AllocError;

/// What an answer's text is made of, as JSON with no space.
pub(crate) trait Json {
    ghost text: { Self → List ℕ };

    /// Adds the JSON at the end.
    fn write(&self, out: &mut String) -> Result<(), AllocError>
        ensures { OnOk result (string_bytes out.new ≡ string_bytes out.old ++ text self.now) };
}

impl Json for (Partition, Range) {
    ghost text = { range_text };

    fn write(&self, out: &mut String) -> Result<(), AllocError> {
        let (partition, range) = self;
        write!(out, "[{},{},{}]", partition.0, range.start.0, range.end.0)
    }
}

impl Json for (Partition, Option<Sequence>) {
    ghost text = { missing_text };

    fn write(&self, out: &mut String) -> Result<(), AllocError> {
        match self {
            (partition, None) => write!(out, "[{},null]", partition.0),
            (partition, Some(sequence)) => write!(out, "[{},{}]", partition.0, sequence.0),
        }
    }
}

impl Json for Value {
    ghost text = { value_text };

    fn write(&self, out: &mut String) -> Result<(), AllocError> {
        match self {
            Value::Int(number) => write!(out, "{number}"),
            Value::Long(number) => write!(out, "{number}"),
            Value::Text(text) => write_text(out, text.as_str()),
            Value::Bool(true) => out.push_str("true"),
            Value::Bool(false) => out.push_str("false"),
            Value::Time(millis) => write!(out, "{millis}"),
        }
    }
}

impl Json for Cell {
    ghost text = { cell_text };

    fn write(&self, out: &mut String) -> Result<(), AllocError> {
        match self {
            Cell::Value(value) => value.write(out),
            Cell::Whole(number) => write!(out, "{number}"),
            Cell::Null => out.push_str("null"),
        }
    }
}

impl Json for ResultRow {
    ghost text = { row_text };

    fn write(&self, out: &mut String) -> Result<(), AllocError> {
        write_array(out, self.cells.as_slice())
    }
}

/// Adds a JSON array of the items.
pub(crate) fn write_array<T: Json>(out: &mut String, items: &[T]) -> Result<(), AllocError>
    ensures { OnOk result (string_bytes out.new ≡ string_bytes out.old ++ array_of (map T.text items.now)) }
{
    out.push('[')?;
    for (place, item) in items.iter().enumerate() {
        write_comma(out, place)?;
        item.write(out)?;
    }
    out.push(']')
}

/// Adds the comma that stands before the item of a place in a JSON array, where one does.
pub fn write_comma(out: &mut String, place: usize) -> Result<(), AllocError>
    ensures ok { OnOk result (string_bytes out.new ≡ string_bytes out.old ++ comma_before place) }
    ensures err { OnErr result (string_bytes out.new ≡ string_bytes out.old) }
{
    if place == 0 { Ok(()) } else { out.push(',') }
}
