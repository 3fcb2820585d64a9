//! Summaries of a segment: what is known of its rows by the values of an indexed column that has few.
ghost use Rattle.std.specs.Prelude.{◌≡◌, ◌<◌, ◌≤◌, [], None as Nothing, length, map, IfOk, OnOk};
ghost use Rattle.std.specs.List.{AllByRecursion};
ghost use Rattle.rt_segment.specs.Column.{values_of};
ghost use Rattle.rt_seek.specs.FileColumn.{file_values};
ghost use Rattle.rt_scan.specs.Summaries.{IsFitting, IsSummary, aggregates_in, is_number, is_summarized};

use crate::scanning::{groups_taken, held_columns};
use rt_agg::Groups;
use rt_lists::{Copied, Items};
use rt_model::{Aggregate, ColumnAt, Item, Query};
use rt_schema::Kind;
use rt_seek::FileColumn;
use rt_segment::{Sealed, SegmentColumn};
use std::alloc::{AllocError, Global};

// A column is summarized where it has at most so many values,
const MOST_VALUES: u32 = 1_024;

// and there are at least so many rows for each aggregate of each value: so a summary takes about a byte a row, and a segment
// that is read in no time has none.
const LEAST_ROWS: u32 = 32;

// All summaries of a segment have at most so many aggregates together, so that a row takes a bounded time.
const MOST_AGGREGATES: usize = 256;

/// The summaries of a segment, by its first columns that are summarized. Fails only where memory is refused.
pub(crate) fn summaries_of(alloc: Global, file: &Sealed) -> Result<Items<Groups>, AllocError>
    ensures summaries { IfOk result (AllByRecursion (IsSummary file.now)) }
    ensures bound { IfOk result (λ summaries. aggregates_in summaries ≤ 256) }
{
    let rows = file.rows();
    let stored = file.columns();
    let columns = held_columns(alloc, stored)?;
    let items = summary_items(alloc, stored)?;
    let aggregates = items.len();
    let mut room = MOST_AGGREGATES;
    let mut summaries = Items::new(alloc);
    for place in 0..stored.len() {
        if aggregates <= room && is_summarized(rows, aggregates, &stored[place]) {
            summaries.push(summary_by(alloc, file, &columns, &items, place)?)?;
            room -= aggregates;
        }
    }
    Ok(summaries)
}

// Whether there is a summary of so many aggregates by a column.
fn is_summarized(rows: u32, aggregates: usize, column: &SegmentColumn) -> bool
    ensures { result ≡ is_summarized rows aggregates column.now }
{
    let values = column.dictionary().len();
    column.is_indexed()
        && values <= MOST_VALUES
        && (values as usize).saturating_mul(aggregates) <= (rows / LEAST_ROWS) as usize
}

// The groups of all rows by the column at a place.
fn summary_by(
    alloc: Global,
    file: &Sealed,
    columns: &[FileColumn<'_>],
    items: &Items<Item>,
    place: usize,
) -> Result<Groups, AllocError>
    requires place { place < length file.now.columns }
    requires columns { map file_values columns.now ≡ map values_of file.now.columns }
    requires items { AllByRecursion (IsFitting file.now.columns) items.now }
    ensures summary { IfOk result (IsSummary file.now) }
    ensures items { IfOk result (λ groups. groups.items ≡ items.now) }
{
    let rows = file.rows();
    let query = summary_query(alloc, file.columns(), items, place)?;
    let groups = groups_taken(alloc, &query, columns, rows)?;
    Ok(groups)
}

// The query of a summary by the column at a place.
fn summary_query(
    alloc: Global,
    columns: &[SegmentColumn],
    items: &Items<Item>,
    place: usize,
) -> Result<Query, AllocError>
    requires place { place < length columns.now }
    requires few { length columns.now ≤ 256 }
    ensures items { IfOk result (λ query. query.items ≡ items.now) }
    ensures order { IfOk result (λ query. query.order ≡ []) }
    ensures filter { IfOk result (λ query. query.filter ≡ Nothing) }
{
    let mut groups = Items::new(alloc);
    groups.push(column_at(alloc, columns, place)?)?;
    Ok(Query {
        items: items.copied(alloc)?,
        filter: None,
        groups,
        order: Items::new(alloc),
        limit: 0,
    })
}

// COUNT(*), and SUM, MIN and MAX of each column of whole numbers.
fn summary_items(alloc: Global, columns: &[SegmentColumn]) -> Result<Items<Item>, AllocError>
    requires { length columns.now ≤ 256 }
    ensures { IfOk result (AllByRecursion (IsFitting columns.now)) }
{
    let mut items = Items::new(alloc);
    items.push(Item::Aggregate(Aggregate::Count))?;
    for place in 0..columns.len() {
        add_aggregates(alloc, columns, place, &mut items)?;
    }
    Ok(items)
}

// Adds the aggregates of the column at a place, where it has whole numbers.
fn add_aggregates(
    alloc: Global,
    columns: &[SegmentColumn],
    place: usize,
    items: &mut Items<Item>,
) -> Result<(), AllocError>
    requires place { place < length columns.now }
    requires few { length columns.now ≤ 256 }
    ensures { OnOk result (AllByRecursion (IsFitting columns.now) items.old → AllByRecursion (IsFitting columns.now) items.new) }
{
    if is_number(columns[place].kind()) {
        let sum = Aggregate::Sum(column_at(alloc, columns, place)?);
        let least = Aggregate::Min(column_at(alloc, columns, place)?);
        let greatest = Aggregate::Max(column_at(alloc, columns, place)?);
        items.push(Item::Aggregate(sum))?;
        items.push(Item::Aggregate(least))?;
        items.push(Item::Aggregate(greatest))?;
    }
    Ok(())
}

fn is_number(kind: Kind) -> bool
    ensures { result ≡ is_number kind }
{
    match kind {
        Kind::Int => true,
        Kind::Long => true,
        Kind::Text => false,
        Kind::Bool => false,
        Kind::Time => true,
    }
}

fn column_at(alloc: Global, columns: &[SegmentColumn], place: usize) -> Result<ColumnAt, AllocError>
    requires place { place < length columns.now }
    requires few { length columns.now ≤ 256 }
    ensures { IfOk result (λ column. column.place ≡ place) }
{
    Ok(ColumnAt {
        name: columns[place].name().copy(alloc)?,
        place: place as u32,
    })
}
