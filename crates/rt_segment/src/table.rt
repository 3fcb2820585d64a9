//! Columns of a table, one after another.
ghost use Rattle.std.specs.Prelude.{◌≡◌, ◌<◌, All, IfOk, length};
ghost use Rattle.rt_segment.specs.Column.{IsColumn};
ghost use Rattle.rt_segment.specs.Segment.{are_columns, is_column, row_in, cell_in, kind_eq};

use crate::segment_column::SegmentColumn;
use rt_lists::Items;
use rt_schema::{Column, Kind, Row, Value};
use std::alloc::{AllocError, Global};

/// Whether columns are those of a schema by name and kind, in order.
#[tactic(auto, using(crate::proofs::Tables::unlike, crate::proofs::Tables::like_more, crate::proofs::Tables::like_end))]
pub(crate) fn are_columns(stored: &[SegmentColumn], columns: &[Column]) -> bool
    ensures { result ≡ are_columns stored.now columns.now }
{
    if stored.len() != columns.len() {
        return false;
    }
    for (place, column) in columns.iter().enumerate() {
        if !is_column(&stored[place], column) {
            return false;
        }
    }
    true
}

// Whether a column is that of a schema.
pub(crate) fn is_column(stored: &SegmentColumn, column: &Column) -> bool
    ensures { result ≡ is_column stored.now column.now }
{
    stored.name().as_bytes() == column.name.as_bytes() && is_kind(stored.kind(), column.kind)
}

fn is_kind(a: Kind, b: Kind) -> bool
    ensures { result ≡ kind_eq a b }
{
    matches!(
        (a, b),
        (Kind::Int, Kind::Int)
            | (Kind::Long, Kind::Long)
            | (Kind::Text, Kind::Text)
            | (Kind::Bool, Kind::Bool)
            | (Kind::Time, Kind::Time)
    )
}

/// Goes over columns, so that each is known to be whole.
pub(crate) fn are_whole(columns: &[SegmentColumn])
    ensures { All IsColumn columns.now }
{
    for column in columns {
        // That a column is whole is told with its size.
        let _size = column.size();
    }
}

/// The row of a number.
pub(crate) fn row_in(
    alloc: Global,
    columns: &[SegmentColumn],
    number: u32,
) -> Result<Row, AllocError>
    requires { All (λ column. number < length column.ids) columns.now }
    ensures { IfOk result (λ row. row ≡ row_in columns.now number) }
{
    let mut values = Items::new(alloc);
    for column in columns {
        values.push(value_in(alloc, column, number)?)?;
    }
    Ok(Row { values })
}

// The value of a column in the row of a number.
fn value_in(alloc: Global, column: &SegmentColumn, number: u32) -> Result<Value, AllocError>
    requires { number < length column.now.ids }
    ensures { IfOk result (λ value. value ≡ cell_in number column.now) }
{
    let id = column.ids()[number as usize];
    column.dictionary().value(alloc, id)
}

/// Equal columns of their own.
pub(crate) fn copies_of(
    alloc: Global,
    columns: &[SegmentColumn],
) -> Result<Items<SegmentColumn>, AllocError>
    ensures { IfOk result (λ copies. copies ≡ columns.now) }
{
    let mut copies = Items::new(alloc);
    for column in columns {
        copies.push(column.copy(alloc)?)?;
    }
    Ok(copies)
}
