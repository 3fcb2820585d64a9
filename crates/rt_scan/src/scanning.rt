//! The groups of the rows of segments.
ghost use Rattle.std.specs.Prelude.{◌≡◌, ℕ, ◌<◌, All, length, map, IfOk};
ghost use Rattle.rt_model.specs.Aggregate.{taken};
ghost use Rattle.rt_segment.specs.Column.{values_of};
ghost use Rattle.rt_segment.specs.Segment.{rows_of};
ghost use Rattle.rt_agg.specs.Grouped.{Fits, Holds};
ghost use Rattle.rt_seek.specs.FileColumn.{file_values};
ghost use Rattle.rt_seek.specs.Table.{row_at, rows_by};
ghost use Rattle.rt_mutable.specs.Consuming.{IsConsuming};
ghost use Rattle.std.specs.List.{range_with_len};
ghost use Rattle.rt_scan.specs.Scanned.{FitsSealed, FitsConsuming, rows_before, first_at, consuming_values};

use crate::grouping::groups_of;
use crate::matching::rows_that_pass;
use crate::skipping::skips;
use rt_agg::Groups;
use rt_base::Offset;
use rt_model::Query;
use rt_mutable::MutableSegment;
use rt_seek::{ConsumingColumn, FileColumn, ScanColumn};
use rt_segment::{Sealed, SegmentColumn};
use std::alloc::{AllocError, Global};

/// The groups of the rows of a sealed segment that a query takes. The query's columns are the segment's by name, place and
/// kind. A segment that [`skips`] rules out isn't read. Fails only where memory is refused.
pub fn scan(alloc: Global, query: &Query, sealed: &Sealed) -> Result<Groups, AllocError>
    requires { FitsSealed query.now sealed.now }
    ensures { IfOk result (Holds query.now (taken query.now (rows_of sealed.now))) }
{
    let rows = sealed.rows();
    if skips(query, sealed) {
        return Groups::make(alloc, query);
    }
    let columns = held_columns(alloc, sealed.columns())?;
    groups_taken(alloc, query, &columns, rows)
}

/// The groups of the rows of a consuming segment that a query takes, those of earlier offsets than this one. The query's
/// columns are the segment's by name, place and kind. Fails only where memory is refused.
pub fn scan_below(
    alloc: Global,
    query: &Query,
    rows: &MutableSegment,
    offset: Offset,
) -> Result<Groups, AllocError>
    requires { FitsConsuming query.now rows.now }
    ensures { IfOk result (Holds query.now (taken query.now (rows_before offset rows.now))) }
{
    let count = rows.rows_below(offset);
    let width = rows.column_count();
    let columns = consuming_columns(alloc, rows, width, count)?;
    groups_taken(alloc, query, &columns, count)
}

// The columns of the first rows of a consuming segment.
fn consuming_columns<'a>(
    alloc: Global,
    rows: &'a MutableSegment,
    width: u32,
    count: u32,
) -> Result<Vec<ConsumingColumn<'a>>, AllocError>
    requires width { width ≡ length rows.now.columns }
    requires right { IsConsuming rows.now }
    ensures { IfOk result (λ columns. map consuming_values columns.items ≡ map (first_at count rows.now.rows) (range_with_len 0 width)) }
{
    let mut columns = Vec::with_capacity(alloc, width as usize)?;
    for place in 0..width {
        columns.push(first_column(rows, place, count))?;
    }
    Ok(columns)
}

fn first_column<'a>(rows: &'a MutableSegment, place: u32, count: u32) -> ConsumingColumn<'a>
    requires place { place < length rows.now.columns }
    requires right { IsConsuming rows.now }
    ensures { consuming_values result ≡ first_at count rows.now.rows place }
{
    ConsumingColumn {
        column: rows.column(place),
        rows: count,
    }
}

// The groups of the rows of a table that a query takes.
pub(crate) fn groups_taken<C: ScanColumn>(
    alloc: Global,
    query: &Query,
    columns: &[C],
    rows: u32,
) -> Result<Groups, AllocError>
    requires full { All (λ column. length (C.values column) ≡ rows) columns.now }
    requires fits { (row : ℕ) → row < rows → Fits query.now (row_at C.values columns.now row) }
    ensures { IfOk result (Holds query.now (taken query.now (rows_by C.values columns.now rows))) }
{
    let set = rows_that_pass(alloc, columns, rows, &query.filter)?;
    groups_of(alloc, query, columns, &set)
}

/// All columns of a segment.
pub(crate) fn held_columns<'a>(
    alloc: Global,
    columns: &'a [SegmentColumn],
) -> Result<Vec<FileColumn<'a>>, AllocError>
    ensures { IfOk result (λ held. map file_values held.items ≡ map values_of columns.now) }
{
    let mut held = Vec::with_capacity(alloc, columns.len())?;
    for column in columns {
        held.push(FileColumn::Held(column))?;
    }
    Ok(held)
}
