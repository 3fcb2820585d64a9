ghost use Rattle.std.specs.Prelude.{◌≡◌, true, IfOk, IfSome, OnOk, length, max, option_map};
ghost use Rattle.serde_json.specs.Data.{object, no_members};
ghost use Rattle.rt_schema.specs.Schema.{names_of, are_distinct, IsSchema};
ghost use Rattle.serde_json.specs.Find.{as_str};
ghost use Rattle.serde_json.specs.View.{view, members_view};
ghost use Rattle.rt_schema.specs.Value.{in_32_bits, value_of, cell_of};
ghost use Rattle.rt_schema.specs.Flat.{data_of, found_in};
ghost use Rattle.rt_schema.specs.Row.{row_in, row_of, AreTextsWithin, IsRowOf};

use crate::flat_reader::read_flat;
use crate::plain_reader::read_plain;
use crate::spare::Spare;
use crate::{Column, Kind, Row, Schema, Value};
use json::Scratch;
use rt_lists::{Items, Text};
use serde_json::{Map, Value as Json};
use std::alloc::{AllocError, Global};

/// The row of a message. None where the message isn't decodable: it isn't UTF-8, isn't JSON or isn't an
/// object, or a column's key has a value that is neither null nor of the column's kind. A key that is
/// absent or null gives the missing value of its kind and role, and other keys are passed over. A text of the row has
/// no more bytes than the message, or than the text `null` of a missing value. Whoever reads many messages keeps a
/// `RowReader`.
pub fn read_row(alloc: Global, schema: &Schema, message: &[u8]) -> Result<Option<Row>, AllocError>
    requires { IsSchema schema.now }
    ensures row { IfOk result (λ row. row ≡ row_of schema.now message.now) }
    ensures kinds { IfOk result (λ row. IfSome row (IsRowOf schema.now)) }
    ensures texts { IfOk result (λ row. IfSome row (AreTextsWithin (max 4 (length message.now)))) }
{
    let mut reader = RowReader::new(alloc);
    reader.read(alloc, schema, message)
}

/// Reads one message after the other, in memory that is kept between them.
#[derive(Drop)]
pub struct RowReader {
    // made at the first message that needs it, and large
    scratch: Option<Box<Scratch>>,
    // what the message that is read has for each column
    found: Vec<Option<Json>>,
    spare: Spare,
}

impl RowReader {
    /// A reader that has read nothing yet.
    pub fn new(alloc: Global) -> Self {
        RowReader {
            scratch: None,
            found: Vec::new(alloc),
            spare: Spare::new(alloc),
        }
    }

    /// The row of a message, as `read_row` gives it. After a refusal of memory the reader may be used again.
    pub fn read(
        &mut self,
        alloc: Global,
        schema: &Schema,
        message: &[u8],
    ) -> Result<Option<Row>, AllocError>
        requires { IsSchema schema.now }
        ensures row { IfOk result (λ row. row ≡ row_of schema.now message.now) }
        ensures kinds { IfOk result (λ row. IfSome row (IsRowOf schema.now)) }
        ensures texts { IfOk result (λ row. IfSome row (AreTextsWithin (max 4 (length message.now)))) }
    {
        read_message(
            alloc,
            schema,
            &mut self.found,
            &mut self.spare,
            &mut self.scratch,
            message,
        )
    }

    /// Keeps the memory of a row that is no longer needed, for those that are read next.
    pub fn keep(&mut self, row: Row) {
        self.spare.keep(row);
    }
}

fn read_message(
    alloc: Global,
    schema: &Schema,
    found: &mut Vec<Option<Json>>,
    spare: &mut Spare,
    scratch: &mut Option<Box<Scratch>>,
    message: &[u8],
) -> Result<Option<Row>, AllocError>
    requires { IsSchema schema.now }
    ensures { IfOk result (λ row. row ≡ row_of schema.now message.now) }
{
    let columns = schema.columns.as_slice();
    if let Some(plain) = read_plain(alloc, columns, spare, message)? {
        return Ok(Some(plain));
    }
    let Ok(text) = str::from_utf8(message) else {
        return Ok(None);
    };
    blank(found, columns)?;
    let scratch = match scratch {
        Some(scratch) => scratch,
        None => scratch.insert(Box::new(alloc, Scratch::new(alloc))?),
    };
    match read_flat(alloc, columns, found.as_mut_slice(), spare, scratch, text)? {
        Some(row) => Ok(Some(row)),
        None => read_any(alloc, schema, message),
    }
}

/// Makes a place for each column, with nothing in it.
#[tactic(auto, using(crate::proofs::Flat::blank_more, crate::proofs::Flat::blank_all))]
fn blank(found: &mut Vec<Option<Json>>, columns: &[Column]) -> Result<(), AllocError>
    ensures { OnOk result (data_of found.new.items ≡ found_in columns.now no_members) }
{
    found.clear();
    for _i in 0..columns.len() {
        found.push(None)?;
    }
    Ok(())
}

/// The row of any message, by way of its whole JSON value.
fn read_any(alloc: Global, schema: &Schema, message: &[u8]) -> Result<Option<Row>, AllocError>
    requires { IsSchema schema.now }
    ensures { IfOk result (λ row. row ≡ row_of schema.now message.now) }
{
    match Json::from_slice(alloc, message) {
        Ok(json) => row_in(alloc, schema.columns.as_slice(), json),
        Err(error) => if error.is_memory() {
            Err(AllocError)
        } else {
            Ok(None)
        },
    }
}

fn row_in(alloc: Global, columns: &[Column], json: Json) -> Result<Option<Row>, AllocError>
    requires { are_distinct (names_of columns.now) ≡ true }
    ensures { IfOk result (λ row. row ≡ row_in columns.now (view json)) }
{
    match json {
        Json::Object(members) => cells(alloc, columns, members),
        _other => Ok(None),
    }
}

// The value of each column, taken out of an object.
fn cells(
    alloc: Global,
    columns: &[Column],
    mut members: Map<String, Json>,
) -> Result<Option<Row>, AllocError>
    requires { are_distinct (names_of columns.now) ≡ true }
    ensures { IfOk result (λ row. row ≡ row_in columns.now (object (members_view members.entries))) }
{
    let mut values = Items::new(alloc);
    for column in columns {
        match cell(alloc, column, members.remove(column.name.as_str()))? {
            Some(value) => values.push(value)?,
            None => return Ok(None),
        }
    }
    Ok(Some(Row { values }))
}

pub(crate) fn cell(
    alloc: Global,
    column: &Column,
    found: Option<Json>,
) -> Result<Option<Value>, AllocError>
    ensures { IfOk result (λ value. value ≡ cell_of column.now (option_map view found)) }
{
    match found {
        None | Some(Json::Null) => Ok(Some(column.missing(alloc)?)),
        Some(json) => Ok(value(column.kind, json)),
    }
}

fn value(kind: Kind, json: Json) -> Option<Value>
    ensures { result ≡ value_of kind (view json) }
{
    match kind {
        Kind::Int => json.as_i64().and_then(in_32_bits).map(Value::Int),
        Kind::Long => json.as_i64().map(Value::Long),
        Kind::Text => text(json).map(Value::Text),
        Kind::Bool => json.as_bool().map(Value::Bool),
        Kind::Time => json.as_i64().map(Value::Time),
    }
}

// The text is moved out, not copied.
fn text(json: Json) -> Option<Text>
    ensures { result ≡ as_str (view json) }
{
    match json {
        Json::String(text) => Some(Text::of(text)),
        _other => None,
    }
}

fn in_32_bits(number: i64) -> Option<i32>
    ensures { result ≡ in_32_bits number }
{
    i32::try_from(number).ok()
}
