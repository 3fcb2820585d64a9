//! The groups of the rows of each side.
ghost use Rattle.std.specs.Prelude.{◌≡◌, ◌&&◌, ◌∷◌, [], All, filter, OnOk};
ghost use Rattle.rt_agg.specs.Grouped.{Fits};
ghost use Rattle.rt_model.specs.Aggregate.{taken};
ghost use Rattle.rt_model.specs.Checked.{IsQuery};
ghost use Rattle.rt_model.specs.Match.{passes};
ghost use Rattle.rt_scan.specs.Filled.{HasKinds, rows_as};
ghost use Rattle.rt_hybrid.specs.Adding.{AddsRows};
ghost use Rattle.rt_hybrid.specs.Pushes.{IsPushed};
ghost use Rattle.rt_hybrid.specs.Sides.{is_past};
ghost use Rattle.rt_hybrid.specs.Table.{rows_of_files, time_of};

use crate::times::{is_past, time_of};
use rt_agg::Groups;
use rt_filter::passes;
use rt_model::Query;
use rt_scan::{scan_as, skips};
use rt_schema::{Row, Schema};
use rt_segment::Sealed;
use std::alloc::{AllocError, Global};

/// Adds the rows of some files that a query takes.
pub(crate) fn add_files(
    alloc: Global,
    groups: &mut Groups,
    query: &Query,
    schema: &Schema,
    files: &[Sealed],
) -> Result<(), AllocError>
    requires query { IsQuery schema.now query.now }
    requires pushed { All (IsPushed schema.now) files.now }
    ensures { OnOk result (AddsRows query.now (taken query.now (rows_of_files schema.now files.now)) groups.old groups.new) }
{
    for file in files {
        add_file(alloc, groups, query, schema, file)?;
    }
    Ok(())
}

// Adds the rows of a file that a query takes. One that its values rule out isn't read.
fn add_file(
    alloc: Global,
    groups: &mut Groups,
    query: &Query,
    schema: &Schema,
    file: &Sealed,
) -> Result<(), AllocError>
    requires query { IsQuery schema.now query.now }
    requires kinds { HasKinds schema.now file.now }
    ensures { OnOk result (AddsRows query.now (taken query.now (rows_as schema.now file.now)) groups.old groups.new) }
{
    // That a file is a right one is told with its rows.
    let _ = file.rows();
    if skips(query, file) {
        return Ok(());
    }
    let more = scan_as(alloc, query, schema, file)?;
    groups.merge(alloc, &more)?;
    Ok(())
}

/// Adds the rows that a query takes of those with a time past the boundary, or of all where there is none.
pub(crate) fn add_past(
    alloc: Global,
    groups: &mut Groups,
    query: &Query,
    boundary: Option<i64>,
    place: u32,
    rows: &[Row],
) -> Result<(), AllocError>
    requires { All (Fits query.now) rows.now }
    ensures { OnOk result (AddsRows query.now (taken query.now (filter (λ row. is_past boundary (time_of place row)) rows.now)) groups.old groups.new) }
{
    for row in rows {
        add_if(alloc, groups, query, boundary, place, row)?;
    }
    Ok(())
}

fn add_if(
    alloc: Global,
    groups: &mut Groups,
    query: &Query,
    boundary: Option<i64>,
    place: u32,
    row: &Row,
) -> Result<(), AllocError>
    requires { Fits query.now row.now }
    ensures { OnOk result (AddsRows query.now (taken query.now (filter (λ row. is_past boundary (time_of place row)) (row.now ∷ []))) groups.old groups.new) }
{
    if is_counted(query, boundary, place, row) {
        groups.add_row(alloc, row)?;
        Ok(())
    } else {
        Ok(())
    }
}

// Whether a row lies past the boundary, and the query takes it.
fn is_counted(query: &Query, boundary: Option<i64>, place: u32, row: &Row) -> bool
    ensures { result ≡ (is_past boundary (time_of place row.now) && passes query.now.filter row.now) }
{
    is_past(boundary, time_of(place, row)) && passes(&query.filter, row)
}
