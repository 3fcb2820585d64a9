//! The groups of the rows of files that lack columns.
ghost use Rattle.std.specs.Prelude.{◌≡◌, None, Some, IfNone, IfOk, IfSome, map};
ghost use Rattle.rt_agg.specs.Grouped.{Holds};
ghost use Rattle.rt_model.specs.Aggregate.{taken};
ghost use Rattle.rt_model.specs.Checked.{IsQuery};
ghost use Rattle.rt_seek.specs.FileColumn.{file_values};
ghost use Rattle.rt_scan.specs.Filled.{rows_as, stored_as, values_as};

use crate::scanning::groups_taken;
use rt_agg::Groups;
use rt_model::Query;
use rt_schema::{Column, Schema};
use rt_seek::FileColumn;
use rt_segment::{Sealed, SegmentColumn};
use std::alloc::{AllocError, Global};

/// The groups of the rows of a sealed segment that a query of a schema takes. A column that the file lacks by name and kind has
/// its missing value in every row. Fails only where memory is refused.
pub fn scan_as(
    alloc: Global,
    query: &Query,
    schema: &Schema,
    sealed: &Sealed,
) -> Result<Groups, AllocError>
    requires { IsQuery schema.now query.now }
    ensures { IfOk result (Holds query.now (taken query.now (rows_as schema.now sealed.now))) }
{
    let rows = sealed.rows();
    let columns = columns_as(alloc, schema.columns.as_slice(), sealed.columns(), rows)?;
    groups_taken(alloc, query, &columns, rows)
}

// The columns of a schema in a file.
fn columns_as<'a>(
    alloc: Global,
    columns: &[Column],
    stored: &'a [SegmentColumn],
    rows: u32,
) -> Result<Vec<FileColumn<'a>>, AllocError>
    ensures { IfOk result (λ found. map file_values found.items ≡ map (values_as stored.now rows) columns.now) }
{
    let mut found = Vec::with_capacity(alloc, columns.len())?;
    for column in columns {
        found.push(column_as(alloc, column, stored, rows)?)?;
    }
    Ok(found)
}

fn column_as<'a>(
    alloc: Global,
    column: &Column,
    stored: &'a [SegmentColumn],
    rows: u32,
) -> Result<FileColumn<'a>, AllocError>
    ensures { IfOk result (λ found. file_values found ≡ values_as stored.now rows column.now) }
{
    match stored_as(column, stored) {
        Some(held) => Ok(FileColumn::Held(held)),
        None => Ok(FileColumn::Missing {
            value: column.missing(alloc)?,
            rows,
        }),
    }
}

fn stored_as<'a>(column: &Column, stored: &'a [SegmentColumn]) -> Option<&'a SegmentColumn>
    ensures some { IfSome result (λ held. stored_as column.now stored.now ≡ Some held.now) }
    ensures none { IfNone result (stored_as column.now stored.now ≡ None) }
{
    for held in stored {
        if held.is_of(column) {
            return Some(held);
        }
    }
    None
}
