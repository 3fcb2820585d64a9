//! The rows of the objects of a text.
ghost use Rattle.std.specs.Prelude.{◌≡◌, IfOk, map, option_map};
ghost use Rattle.std.specs.List.{list_all};
ghost use Rattle.serde_json.specs.View.{view};
ghost use Rattle.rt_schema.specs.Row.{row_in};
ghost use Rattle.rt_schema.specs.Value.{cell_of, in_32_bits, value_of};
ghost use Rattle.rt_hybrid.specs.Batch.{is_short, row_pushed, rows_in};
ghost use Rattle.rt_hybrid.specs.Cells.{cells_in};

use rt_base::limits::LONGEST_MESSAGE;
use rt_lists::{Items, Text};
use rt_schema::{Column, Kind, Row, Value};
use serde_json::Value as Json;
use std::alloc::{AllocError, Global};

/// The rows of some objects in some columns; none where one of them isn't decodable or has a text that is too long.
pub(crate) fn rows_in(
    alloc: Global,
    columns: &[Column],
    items: &[Json],
) -> Result<Option<Items<Row>>, AllocError>
    ensures { IfOk result (λ rows. rows ≡ rows_in columns.now (map view items.now)) }
{
    let mut rows = Items::new(alloc);
    for item in items {
        match row_pushed(alloc, columns, item)? {
            Some(row) => rows.push(row)?,
            None => return Ok(None),
        }
    }
    Ok(Some(rows))
}

fn row_pushed(alloc: Global, columns: &[Column], json: &Json) -> Result<Option<Row>, AllocError>
    ensures { IfOk result (λ row. row ≡ row_pushed columns.now (view json.now)) }
{
    match row_in(alloc, columns, json)? {
        Some(row) => if are_short(row.values.as_slice()) {
            Ok(Some(row))
        } else {
            Ok(None)
        },
        None => Ok(None),
    }
}

fn row_in(alloc: Global, columns: &[Column], json: &Json) -> Result<Option<Row>, AllocError>
    ensures { IfOk result (λ row. row ≡ row_in columns.now (view json.now)) }
{
    if !json.is_object() {
        return Ok(None);
    }
    match cells_in(alloc, columns, json)? {
        Some(values) => Ok(Some(Row { values })),
        None => Ok(None),
    }
}

// The value of each column in a JSON value.
fn cells_in(
    alloc: Global,
    columns: &[Column],
    json: &Json,
) -> Result<Option<Items<Value>>, AllocError>
    ensures { IfOk result (λ values. values ≡ cells_in (view json.now) columns.now) }
{
    let mut values = Items::new(alloc);
    for column in columns {
        match cell_of(alloc, column, json.get(column.name.as_str()))? {
            Some(value) => values.push(value)?,
            None => return Ok(None),
        }
    }
    Ok(Some(values))
}

/// What a column gets from what stands at its name in an object.
pub(crate) fn cell_of(
    alloc: Global,
    column: &Column,
    found: Option<&Json>,
) -> Result<Option<Value>, AllocError>
    ensures { IfOk result (λ value. value ≡ cell_of column.now (option_map (λ json. view json.now) found.entry)) }
{
    match found {
        None | Some(Json::Null) => Ok(Some(column.missing(alloc)?)),
        Some(json) => value_of(alloc, column.kind, json),
    }
}

fn value_of(alloc: Global, kind: Kind, json: &Json) -> Result<Option<Value>, AllocError>
    ensures { IfOk result (λ value. value ≡ value_of kind (view json.now)) }
{
    match kind {
        Kind::Int => Ok(json.as_i64().and_then(in_32_bits).map(Value::Int)),
        Kind::Long => Ok(json.as_i64().map(Value::Long)),
        Kind::Text => text_of(alloc, json),
        Kind::Bool => Ok(json.as_bool().map(Value::Bool)),
        Kind::Time => Ok(json.as_i64().map(Value::Time)),
    }
}

fn text_of(alloc: Global, json: &Json) -> Result<Option<Value>, AllocError>
    ensures { IfOk result (λ value. value ≡ value_of Kind.Text (view json.now)) }
{
    match json.as_str() {
        Some(text) => Ok(Some(Value::Text(Text::copied_from(alloc, text)?))),
        None => Ok(None),
    }
}

fn in_32_bits(number: i64) -> Option<i32>
    ensures { result ≡ in_32_bits number }
{
    i32::try_from(number).ok()
}

fn are_short(values: &[Value]) -> bool
    ensures { result ≡ list_all is_short values.now }
{
    for value in values {
        if !is_short(value) {
            return false;
        }
    }
    true
}

fn is_short(value: &Value) -> bool
    ensures { result ≡ is_short value.now }
{
    match value {
        Value::Text(text) => text.len() <= LONGEST_MESSAGE,
        Value::Int(_) | Value::Long(_) | Value::Bool(_) | Value::Time(_) => true,
    }
}
