//! The first rows of each column, sealed.
ghost use Rattle.std.specs.Prelude.{◌≡◌, ◌≤◌, All, length, IfOk};
ghost use Rattle.rt_schema.specs.Schema.{is_among};
ghost use Rattle.rt_mutable.specs.Consuming.{IsShort};
ghost use Rattle.rt_segment.specs.Column.{AreShort};
ghost use Rattle.rt_build.specs.Sealing.{filled_of, AreColumnsSealed, IsColumnSealed};

use crate::sorted_values::sort_column;
use rt_lists::{Items, Text};
use rt_mutable::{MutableColumn, MutableSegment};
use rt_segment::SegmentColumn;
use std::alloc::{AllocError, Global};

/// The first rows of each column of a segment; the named columns are indexed.
pub(crate) fn seal_columns(
    alloc: Global,
    segment: &MutableSegment,
    rows: u32,
    indexed: &[Text],
) -> Result<Items<SegmentColumn>, AllocError>
    requires { rows ≤ length segment.now.rows }
    ensures columns { IfOk result (AreColumnsSealed rows indexed.now (filled_of segment.now)) }
    ensures short { IfOk result (All (λ column. AreShort column.dictionary)) }
{
    let count = segment.column_count();
    let mut columns = Vec::with_capacity(alloc, count as usize)?;
    for place in 0..count {
        let column = segment.column(place);
        let is_indexed = is_among(column.name(), indexed);
        columns.push(seal_column(alloc, column, rows, is_indexed)?)?;
    }
    Ok(Items::of(columns))
}

/// The first rows of a column.
fn seal_column(
    alloc: Global,
    column: &MutableColumn,
    rows: u32,
    indexed: bool,
) -> Result<SegmentColumn, AllocError>
    requires rows { rows ≤ length column.now.values }
    requires short { All IsShort column.now.values }
    ensures sealed { IfOk result (IsColumnSealed rows indexed column.now) }
    ensures short { IfOk result (λ sealed. AreShort sealed.dictionary) }
{
    let name = column.name().copy(alloc)?;
    let sorted = sort_column(alloc, column.values(), rows)?;
    SegmentColumn::make(alloc, name, sorted.dictionary, sorted.ids, indexed)
}

/// Whether a name is one of some names.
fn is_among(name: &Text, names: &[Text]) -> bool
    ensures { result ≡ is_among name.now names.now }
{
    for other in names {
        if name == other {
            return true;
        }
    }
    false
}
