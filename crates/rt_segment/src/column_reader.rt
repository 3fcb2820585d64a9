//! A column of a file.
ghost use Rattle.std.specs.Prelude.{◌≡◌, ◌≤◌, [], map};
ghost use Rattle.rt_schema.specs.Schema.{is_among};
ghost use Rattle.rt_segment.specs.Cursor.{Gives};
ghost use Rattle.rt_segment.specs.Reading.{name_at, kind_at, cardinality_at, column_at, columns_at};
ghost use Rattle.rt_segment.specs.Spelling.{has_extremes};

use crate::cursor::Cursor;
use crate::dictionary_reader::read_dictionary;
use crate::ids_reader::{check_used, read_ids};
use crate::segment_column::SegmentColumn;
use crate::segment_refused::SegmentRefused;
use crate::stored::Stored;
use crate::texts::text_of;
use rt_base::limits::LONGEST_NAME;
use rt_lists::{Items, Text};
use rt_schema::Kind;
use std::alloc::Global;

/// A column of so many rows, which has another name than those before it.
#[tactic(auto, unfolding(crate::specs::Reading::column_at))]
pub(crate) fn read_column(
    alloc: Global,
    format: u8,
    rows: u32,
    before: &[SegmentColumn],
    cursor: &mut Cursor<'_>,
) -> Result<SegmentColumn, SegmentRefused>
    requires { rows ≤ 1000000 }
    ensures { Gives (λ column. column) result cursor.new (column_at format rows (map (λ column. column.name) before.now) cursor.old) }
{
    let name = read_name(alloc, before, cursor)?;
    let kind = read_kind(cursor)?;
    let indexed = bool::read(alloc, cursor)?;
    let cardinality = read_cardinality(rows, cursor)?;
    let mut values = cursor.again();
    let extremes = has_extremes(format, rows);
    let dictionary = read_dictionary(alloc, kind, extremes, cardinality, cursor)?;
    let ids = read_ids(alloc, rows, cardinality, cursor)?;
    check_used(alloc, &ids, kind, cardinality, &mut values)?;
    let column = SegmentColumn::make(alloc, name, dictionary, Items::of(ids), indexed)?;
    column.check_postings(cursor)?;
    Ok(column)
}

/// So many columns of so many rows.
pub(crate) fn read_columns(
    alloc: Global,
    format: u8,
    rows: u32,
    count: u16,
    cursor: &mut Cursor<'_>,
) -> Result<Items<SegmentColumn>, SegmentRefused>
    requires { rows ≤ 1000000 }
    ensures { Gives (λ columns. columns) result cursor.new (columns_at format rows count [] cursor.old) }
{
    let mut columns = Items::new(alloc);
    for _column in 0..count {
        let column = read_column(alloc, format, rows, columns.as_slice(), cursor)?;
        columns.push(column)?;
    }
    Ok(columns)
}

/// Whether the columns of a file have their least and greatest values.
pub(crate) fn has_extremes(format: u8, rows: u32) -> bool
    ensures { result ≡ has_extremes format rows }
{
    format == 2 && rows > 0
}

// A name of 1 to 128 bytes of UTF-8 that no column before it has.
#[tactic(auto, unfolding(crate::specs::Reading::name_at))]
fn read_name(
    alloc: Global,
    before: &[SegmentColumn],
    cursor: &mut Cursor<'_>,
) -> Result<Text, SegmentRefused>
    ensures { Gives (λ t. t) result cursor.new (name_at (map (λ column. column.name) before.now) cursor.old) }
{
    let wrong = cursor.breach();
    let len = cursor.short()?;
    if usize::from(len) > LONGEST_NAME {
        return Err(SegmentRefused::Limit);
    }
    if len == 0 {
        return Err(wrong);
    }
    let bytes = cursor.bytes(usize::from(len))?;
    if has_name(before, bytes) {
        return Err(wrong);
    }
    text_of(alloc, bytes, wrong)
}

// Whether a column has this name.
fn has_name(columns: &[SegmentColumn], name: &[u8]) -> bool
    ensures { result ≡ is_among name.now (map (λ column. column.name) columns.now) }
{
    for column in columns {
        if name == column.name().as_bytes() {
            return true;
        }
    }
    false
}

#[tactic(auto, unfolding(crate::specs::Reading::kind_at))]
fn read_kind(cursor: &mut Cursor<'_>) -> Result<Kind, SegmentRefused>
    ensures { Gives (λ kind. kind) result cursor.new (kind_at cursor.old) }
{
    let wrong = cursor.breach();
    match cursor.byte()? {
        1 => Ok(Kind::Int),
        2 => Ok(Kind::Long),
        3 => Ok(Kind::Text),
        4 => Ok(Kind::Bool),
        5 => Ok(Kind::Time),
        _ => Err(wrong),
    }
}

// The number of distinct values; a file with rows has some.
#[tactic(auto, unfolding(crate::specs::Reading::cardinality_at))]
fn read_cardinality(rows: u32, cursor: &mut Cursor<'_>) -> Result<u32, SegmentRefused>
    ensures { Gives (λ n. n) result cursor.new (cardinality_at rows cursor.old) }
{
    let wrong = cursor.breach();
    let cardinality = cursor.word()?;
    if cardinality == 0 && rows > 0 {
        return Err(wrong);
    }
    Ok(cardinality)
}
