ghost use Rattle.std.specs.Prelude.{◌≡◌, IfOk};
ghost use Rattle.rt_model.specs.Values.{number_of};
ghost use Rattle.rt_upsert.specs.Latest.{compare_of, key_of, place_of, value_in};

use rt_lists::{Copied, Items};
use rt_schema::{Column, Row, Value};
use std::alloc::{AllocError, Global};

/// The place of the column of a name, among columns of which one has it.
pub(crate) fn place_of(name: &str, columns: &[Column]) -> usize
    ensures { result ≡ place_of name.now columns.now }
{
    let mut place = 0;
    for column in columns {
        if name == column.name.as_str() {
            return place;
        }
        place += 1;
    }
    place
}

/// The key values of a row, those of the columns at these places.
pub(crate) fn key_of(alloc: Global, places: &[usize], row: &Row) -> Result<Items<Value>, AllocError>
    ensures { IfOk result (λ key. key ≡ key_of places.now row.now) }
{
    let mut key = Items::new(alloc);
    for place in places {
        key.push(value_in(alloc, *place, row)?)?;
    }
    Ok(key)
}

fn value_in(alloc: Global, place: usize, row: &Row) -> Result<Value, AllocError>
    ensures { IfOk result (λ value. value ≡ value_in row.now place) }
{
    match row.values.get(place) {
        Some(value) => value.copied(alloc),
        None => Ok(Value::Bool(false)),
    }
}

/// The comparison value of a row, that of the column at this place.
pub(crate) fn compare_of(place: usize, row: &Row) -> i64
    ensures { result ≡ compare_of place row.now }
{
    match row.values.get(place) {
        Some(value) => number_of(value),
        None => 0,
    }
}

fn number_of(value: &Value) -> i64
    ensures { result ≡ number_of value.now }
{
    match value {
        Value::Int(number) => i64::from(*number),
        Value::Long(number) => *number,
        Value::Time(millis) => *millis,
        Value::Text(_) | Value::Bool(_) => 0,
    }
}
