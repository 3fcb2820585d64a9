//! Values of columns, as lines write them: numbers in decimal, truths as 0 and 1, texts as JSON.
ghost use Rattle.std.specs.Prelude.{◌≡◌};
ghost use Rattle.rt_schema.specs.Value.{kind_of};

use rt_call_words::{Answer, Words};
use rt_schema::{Kind, Row, Value};
use std::alloc::Global;

/// Adds a row's values, in the order of the columns.
pub fn write_row(alloc: Global, row: &Row, answer: &mut Answer) {
    for (place, value) in row.values.as_slice().iter().enumerate() {
        answer.part(place, " ");
        write_value(alloc, value, answer);
    }
}

fn write_value(alloc: Global, value: &Value, answer: &mut Answer) {
    match value {
        Value::Int(number) => answer.long(i64::from(*number)),
        Value::Long(number) => answer.long(*number),
        Value::Text(text) => answer.json(alloc, text.as_str()),
        Value::Bool(truth) => answer.add(if *truth { "1" } else { "0" }),
        Value::Time(millis) => answer.long(*millis),
    }
}

/// The next value, of a kind.
pub fn value_in(alloc: Global, kind: Kind, words: &mut Words) -> Value
    ensures { kind_of result ≡ kind }
{
    match kind {
        Kind::Int => Value::Int(words.int()),
        Kind::Long => Value::Long(words.long()),
        Kind::Text => Value::Text(words.json(alloc)),
        Kind::Bool => Value::Bool(words.is_second("0", "1")),
        Kind::Time => Value::Time(words.long()),
    }
}
