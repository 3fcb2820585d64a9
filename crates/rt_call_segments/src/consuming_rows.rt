ghost use Rattle.std.specs.Prelude.{◌↔◌, All, IsTrue};
ghost use Rattle.rt_schema.specs.Schema.{IsSchema};
ghost use Rattle.rt_schema.specs.Row.{IsRowOf};
ghost use Rattle.rt_mutable.specs.Consuming.{IsShort};

use crate::column_names::are_columns;
use crate::consuming::Consuming;
use crate::held_segments::HeldSegments;
use rt_base::Offset;
use rt_base::limits::{LONGEST_MESSAGE, MOST_ROWS};
use rt_call_schemas::{Tables, value_in, write_row};
use rt_call_words::{Answer, Stop, Words};
use rt_lists::{Items, Text};
use rt_mutable::MutableSegment;
use rt_schema::{Row, Schema, Value, read_row};
use std::alloc::Global;

/// `rows ..`: calls of the consuming segment.
pub fn rows(
    alloc: Global,
    tables: &Tables,
    segments: &mut HeldSegments,
    words: &mut Words,
    answer: &mut Answer,
) -> Result<(), Stop> {
    match words.word() {
        "index" => index(alloc, segments, words, answer),
        "make" => make(alloc, tables, segments, words, answer),
        name => ask(alloc, &segments.consuming()?.segment, name, words, answer),
    }
}

// What changes nothing.
fn ask(
    alloc: Global,
    segment: &MutableSegment,
    name: &str,
    words: &mut Words,
    answer: &mut Answer,
) -> Result<(), Stop> {
    match name {
        "ends" => ends(segment, words, answer),
        "below" => below(segment, words, answer),
        "row" => row(alloc, segment, words, answer),
        "docs" => docs(alloc, segment, words, answer),
        "ids" => ids(segment, words, answer),
        _ => Err(Stop::BadLine),
    }
}

// `make START INDEXED`: a segment over the schema, with these columns indexed.
fn make(
    alloc: Global,
    tables: &Tables,
    segments: &mut HeldSegments,
    words: &mut Words,
    answer: &mut Answer,
) -> Result<(), Stop> {
    let start = Offset(words.number());
    let indexed = names_in(alloc, words)?;
    let known = tables.schema_again(alloc)?;
    let made = segment_over(alloc, known.schema, start, indexed.as_slice())?;
    answer.add("ok");
    answer.written()?;
    segments.consuming = Some(made);
    Ok(())
}

/// Names of columns up to the end, or `-`.
pub(crate) fn names_in(alloc: Global, words: &mut Words) -> Result<Items<Text>, Stop> {
    let mut names = Items::new(alloc);
    let list = words.rest();
    words.ended()?;
    if list == "-" {
        return Ok(names);
    }
    let mut words = Words::of(list);
    for _ in 0..list.len() {
        names.push(words.json(alloc))?;
        if words.ended().is_ok() {
            break;
        }
    }
    words.ended()?;
    Ok(names)
}

#[tactic(auto, using(crate::proofs::Shapes::names_kept, crate::proofs::Shapes::kinds_kept))]
fn segment_over(
    alloc: Global,
    schema: Schema,
    start: Offset,
    indexed: &[Text],
) -> Result<Consuming, Stop>
    requires { IsSchema schema }
{
    if !are_columns(indexed, schema.columns.as_slice()) {
        return Err(Stop::Refused);
    }
    let segment = MutableSegment::make_indexed(alloc, &schema, start, indexed)?;
    Ok(Consuming { schema, segment })
}

// `index MESSAGE`: the row of the message at the end, or `none`.
fn index(
    alloc: Global,
    segments: &mut HeldSegments,
    words: &mut Words,
    answer: &mut Answer,
) -> Result<(), Stop> {
    let message = words.message(alloc);
    words.ended()?;
    match &mut segments.consuming {
        Some(consuming) => take(alloc, consuming, message.as_slice(), answer),
        None => Err(Stop::Refused),
    }
}

fn take(
    alloc: Global,
    consuming: &mut Consuming,
    message: &[u8],
    answer: &mut Answer,
) -> Result<(), Stop> {
    match read_row(alloc, &consuming.schema, message)? {
        Some(row) => {
            write_row(alloc, &row, answer);
            answer.written()?;
            take_row(alloc, consuming, &row)
        }
        None => {
            answer.add("none");
            answer.written()?;
            take_none(alloc, consuming)
        }
    }
}

fn take_row(alloc: Global, consuming: &mut Consuming, row: &Row) -> Result<(), Stop>
    requires { IsRowOf consuming.old.schema row.now }
{
    let is_full = consuming.segment.len() >= MOST_ROWS;
    if is_full || consuming.segment.end().0 == u64::MAX || !are_short(row.values.as_slice()) {
        return Err(Stop::Refused);
    }
    Ok(consuming.segment.index(alloc, Some(row))?)
}

fn take_none(alloc: Global, consuming: &mut Consuming) -> Result<(), Stop> {
    let is_full = consuming.segment.len() >= MOST_ROWS;
    if is_full || consuming.segment.end().0 == u64::MAX {
        return Err(Stop::Refused);
    }
    Ok(consuming.segment.index(alloc, None)?)
}

// Whether no text has more bytes than a message.
fn are_short(values: &[Value]) -> bool
    ensures { IsTrue result ↔ All IsShort values.now }
{
    values.iter().all(|value| is_short(value))
}

fn is_short(value: &Value) -> bool
    ensures { IsTrue result ↔ IsShort value.now }
{
    match value {
        Value::Text(text) => text.len() <= LONGEST_MESSAGE,
        _ => true,
    }
}

// `ends`: the start, the end and the number of rows.
fn ends(segment: &MutableSegment, words: &mut Words, answer: &mut Answer) -> Result<(), Stop> {
    words.ended()?;
    answer.number(segment.start().0);
    answer.add(" ");
    answer.number(segment.end().0);
    answer.add(" ");
    answer.count(segment.len());
    Ok(())
}

// `below X`: the number of rows of earlier offsets.
fn below(segment: &MutableSegment, words: &mut Words, answer: &mut Answer) -> Result<(), Stop> {
    let offset = Offset(words.number());
    words.ended()?;
    answer.count(segment.rows_below(offset));
    Ok(())
}

// `row N`: a row by its number.
fn row(
    alloc: Global,
    segment: &MutableSegment,
    words: &mut Words,
    answer: &mut Answer,
) -> Result<(), Stop> {
    let number = words.count();
    words.ended()?;
    if number >= segment.len() {
        return Err(Stop::Refused);
    }
    let row = segment.row(alloc, number)?;
    write_row(alloc, &row, answer);
    Ok(())
}

// `docs COLUMN VALUE`: the rows that have a value in an indexed column.
fn docs(
    alloc: Global,
    segment: &MutableSegment,
    words: &mut Words,
    answer: &mut Answer,
) -> Result<(), Stop> {
    let place = words.count();
    if place >= segment.column_count() {
        return Err(Stop::Refused);
    }
    let column = segment.column(place);
    let value = value_in(alloc, column.kind(), words);
    words.ended()?;
    if !column.is_indexed() || value.kind() != column.kind() {
        return Err(Stop::Refused);
    }
    answer.counts(segment.docs_equal(place, &value));
    Ok(())
}

// `ids COLUMN`: the id of each row's value, in the order of their first arrival.
fn ids(segment: &MutableSegment, words: &mut Words, answer: &mut Answer) -> Result<(), Stop> {
    let place = words.count();
    words.ended()?;
    if place >= segment.column_count() {
        return Err(Stop::Refused);
    }
    answer.counts(segment.column(place).ids());
    Ok(())
}
