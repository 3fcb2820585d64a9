//! The times of rows.
ghost use Rattle.std.specs.Prelude.{◌≡◌, ◌≤◌, fold, length, map, IfOk};
ghost use Rattle.serde_json.specs.View.{view};
ghost use Rattle.rt_base.specs.declared.limits.TheConstants.{MOST_COLUMNS as MOST};
ghost use Rattle.rt_model.specs.Values.{number_of};
ghost use Rattle.rt_hybrid.specs.Cells.{time_in};
ghost use Rattle.rt_hybrid.specs.Sides.{is_past};
ghost use Rattle.rt_hybrid.specs.Table.{day_before, greater_of, is_time, is_time_column, place_of, time_of};

use crate::rows::cell_of;
use rt_schema::{Column, Kind, Row, Value};
use serde_json::Value as Json;
use std::alloc::{AllocError, Global};

/// The boundary lies one day below the greatest offline time: a day's rows may still come.
const DAY_MILLIS: i64 = 86_400_000;

/// The place of the column of a name whose values are times.
pub(crate) fn place_of(name: &str, columns: &[Column]) -> Option<u32>
    requires { length columns.now ≤ MOST }
    ensures { result ≡ place_of name.now columns.now }
{
    let mut place = 0;
    for column in columns {
        if is_time_column(name, column) {
            return Some(place);
        }
        place += 1;
    }
    None
}

fn is_time_column(name: &str, column: &Column) -> bool
    ensures { result ≡ is_time_column name.now column.now }
{
    name == column.name.as_str() && is_time(column.kind)
}

fn is_time(kind: Kind) -> bool
    ensures { result ≡ is_time kind }
{
    match kind {
        Kind::Long | Kind::Time => true,
        Kind::Int | Kind::Text | Kind::Bool => false,
    }
}

/// The time of a row, that in the column at a place.
pub(crate) fn time_of(place: u32, row: &Row) -> i64
    ensures { result ≡ time_of place row.now }
{
    match row.values.get(place as usize) {
        Some(value) => number_of(value),
        None => 0,
    }
}

fn number_of(value: &Value) -> i64
    ensures { result ≡ number_of value.now }
{
    match value {
        Value::Int(number) => i64::from(*number),
        Value::Long(number) => *number,
        Value::Time(millis) => *millis,
        Value::Text(_) | Value::Bool(_) => 0,
    }
}

/// The greatest of a time, where there is one, and the times that some objects have in a column.
pub(crate) fn greatest_with(
    alloc: Global,
    greatest: Option<i64>,
    column: &Column,
    items: &[Json],
) -> Result<Option<i64>, AllocError>
    ensures { IfOk result (λ with. with ≡ fold greater_of greatest (map (time_in column.now) (map view items.now))) }
{
    let mut greatest = greatest;
    for item in items {
        greatest = greater_of(greatest, time_in(alloc, column, item)?);
    }
    Ok(greatest)
}

// The time that an object has in a time column.
fn time_in(alloc: Global, column: &Column, item: &Json) -> Result<i64, AllocError>
    ensures { IfOk result (λ time. time ≡ time_in column.now (view item.now)) }
{
    match cell_of(alloc, column, item.get(column.name.as_str()))? {
        Some(value) => Ok(number_of(&value)),
        None => {
            let missing = column.missing(alloc)?;
            Ok(number_of(&missing))
        }
    }
}

fn greater_of(greatest: Option<i64>, time: i64) -> Option<i64>
    ensures { result ≡ greater_of greatest time }
{
    match greatest {
        Some(greatest) => if greatest < time {
            Some(time)
        } else {
            Some(greatest)
        },
        None => Some(time),
    }
}

/// One day before a time, saturating.
pub(crate) fn day_before(time: i64) -> i64
    ensures { result ≡ day_before time }
{
    time.saturating_sub(DAY_MILLIS)
}

/// Whether a time lies past the boundary, or there is none.
pub(crate) fn is_past(boundary: Option<i64>, time: i64) -> bool
    ensures { result ≡ is_past boundary time }
{
    match boundary {
        Some(boundary) => boundary < time,
        None => true,
    }
}
