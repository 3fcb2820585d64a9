ghost use Rattle.std.specs.Prelude.{◌≡◌, ℕ, ◌<◌, ◌≤◌, All, true, length, map, replicate, IfOk};
ghost use Rattle.rt_agg.specs.Paging.{fed};
ghost use Rattle.rt_agg.specs.ValueRef.{value_lent};
ghost use Rattle.rt_segment.specs.Column.{count_in, values_in, values_of};
ghost use Rattle.rt_seek.specs.ColumnTest.{passes_test};
ghost use Rattle.rt_seek.specs.FileColumn.{file_values, file_value_of};
ghost use Rattle.rt_seek.specs.Scalars.{led, scalar_on};
ghost use Rattle.rt_seek.specs.Table.{item_at};
ghost use Rattle.rt_seek.specs.RowSets.{noted_id, truth_at};

use crate::column_test::ColumnTest;
use crate::held_scalars::{HeldInts, HeldLongs, HeldTimes, time_scalar};
use crate::row_sets::{add_rows, all_rows, rows_with};
use crate::scalars_by_id::feed_led;
use crate::scan_column::ScanColumn;
use crate::truths::truths_of;
use rt_agg::{PlacedRow, Scalar, TakeScalar, ValueRef, take_same};
use rt_postings::DocSet;
use rt_schema::Value;
use rt_segment::{Dictionary, SegmentColumn};
use std::alloc::{AllocError, Global};

/// A column of the rows of a file.
#[derive(Drop)]
pub enum FileColumn<'a> {
    Held(&'a SegmentColumn),
    /// The file lacks the column: each of so many rows has this value.
    Missing { value: Value, rows: u32 },
}

impl<'a> ScanColumn for FileColumn<'a> {
    ghost values = { file_values };

    ghost value_of = { file_value_of };

    fn rows_that_pass(&self, alloc: Global, test: &ColumnTest<'_>) -> Result<DocSet, AllocError> {
        match self {
            FileColumn::Held(column) => held_rows(alloc, column, test),
            FileColumn::Missing { value, rows } => missing_rows(alloc, value, *rows, test),
        }
    }

    fn id(&self, row: u32) -> u32 {
        match self {
            FileColumn::Held(column) => held_id(column, row),
            FileColumn::Missing { .. } => 0,
        }
    }

    fn value(&self, row: u32) -> ValueRef<'_> {
        match self {
            FileColumn::Held(column) => held_value(column, row),
            FileColumn::Missing { value, .. } => ValueRef::of(value),
        }
    }

    fn feed<T: TakeScalar>(&self, page: &[PlacedRow], taker: &mut T) {
        match self {
            FileColumn::Held(column) => feed_held(column.dictionary(), column.ids(), page, taker),
            FileColumn::Missing { value, rows } => feed_missing(value, *rows, page, taker),
        }
    }
}

fn held_id(column: &SegmentColumn, row: u32) -> u32
    requires { row < length (values_of column.now) }
    ensures value { item_at (values_in column.now.dictionary) result ≡ item_at (values_of column.now) row }
    ensures least { (other : ℕ) → item_at (values_in column.now.dictionary) other ≡ item_at (values_in column.now.dictionary) result → result ≤ other }
{
    column.ids()[row as usize]
}

fn missing_rows(
    alloc: Global,
    value: &Value,
    rows: u32,
    test: &ColumnTest<'_>,
) -> Result<DocSet, AllocError>
    ensures { IfOk result (λ set. set ≡ map (passes_test test.now) (replicate rows value.now)) }
{
    if test.passes(value) {
        all_rows(alloc, rows)
    } else {
        DocSet::empty(alloc, rows)
    }
}

fn feed_missing<T: TakeScalar>(value: &Value, rows: u32, page: &[PlacedRow], taker: &mut T)
    ensures { taker.new ≡ fed T.takes (scalar_on (replicate rows value.now)) page.now taker.old }
{
    for placed in page {
        taker.take(placed.group, missing_scalar(value, rows, placed.row));
    }
}

fn missing_scalar(value: &Value, rows: u32, row: u32) -> Option<Scalar>
    ensures { result ≡ scalar_on (replicate rows value.now) row }
{
    if row < rows { Scalar::of(value) } else { None }
}

fn held_value(column: &SegmentColumn, row: u32) -> ValueRef<'_>
    requires { row < length (values_of column.now) }
    ensures { value_lent result ≡ item_at (values_of column.now) row }
{
    value_with(column.dictionary(), column.ids()[row as usize])
}

fn value_with(dictionary: &Dictionary, id: u32) -> ValueRef<'_>
    requires { id < count_in dictionary.now }
    ensures { value_lent result ≡ item_at (values_in dictionary.now) id }
{
    match dictionary {
        Dictionary::Int(dict) => ValueRef::Int(*dict.value(id)),
        Dictionary::Long(dict) => ValueRef::Long(*dict.value(id)),
        Dictionary::Text(dict) => ValueRef::Text(dict.value(id).as_str()),
        Dictionary::Bool(dict) => ValueRef::Bool(*dict.value(id)),
        Dictionary::Time(dict) => ValueRef::of_scalar(time_scalar(dict.value(id))),
    }
}

// Hands on the whole numbers of the rows of a page, by the kind of a dictionary.
fn feed_held<T: TakeScalar>(dictionary: &Dictionary, ids: &[u32], page: &[PlacedRow], taker: &mut T)
    requires { All (λ id. id < count_in dictionary.now) ids.now }
    ensures { taker.new ≡ fed T.takes (scalar_on (led (values_in dictionary.now) ids.now)) page.now taker.old }
{
    match dictionary {
        Dictionary::Int(dict) => feed_led(&HeldInts { dict }, ids, page, taker),
        Dictionary::Long(dict) => feed_led(&HeldLongs { dict }, ids, page, taker),
        Dictionary::Text(_) => take_same(page, None, taker),
        Dictionary::Bool(_) => take_same(page, None, taker),
        Dictionary::Time(dict) => feed_led(&HeldTimes { dict }, ids, page, taker),
    }
}

// Which rows of a column pass a test.
fn held_rows(
    alloc: Global,
    column: &SegmentColumn,
    test: &ColumnTest<'_>,
) -> Result<DocSet, AllocError>
    ensures { IfOk result (λ set. set ≡ map (passes_test test.now) (values_of column.now)) }
{
    let ids = column.ids();
    let truths = truths_in(alloc, column.dictionary(), test)?;
    if column.is_indexed() {
        rows_by_postings(alloc, column, &truths)
    } else {
        rows_with(alloc, &truths, ids)
    }
}

// Which values of a dictionary pass a test.
fn truths_in(
    alloc: Global,
    dictionary: &Dictionary,
    test: &ColumnTest<'_>,
) -> Result<Vec<bool>, AllocError>
    ensures { IfOk result (λ truths. truths.items ≡ map (passes_test test.now) (values_in dictionary.now)) }
{
    match dictionary {
        Dictionary::Int(dict) => truths_of(alloc, dict, test),
        Dictionary::Long(dict) => truths_of(alloc, dict, test),
        Dictionary::Text(dict) => truths_of(alloc, dict, test),
        Dictionary::Bool(dict) => truths_of(alloc, dict, test),
        Dictionary::Time(dict) => truths_of(alloc, dict, test),
    }
}

// The rows of the ids that pass, by the rows of each id.
fn rows_by_postings(
    alloc: Global,
    column: &SegmentColumn,
    truths: &[bool],
) -> Result<DocSet, AllocError>
    requires indexed { column.now.indexed ≡ true }
    requires truths { length truths.now ≡ count_in column.now.dictionary }
    ensures { IfOk result (λ set. set ≡ map (truth_at truths.now) column.now.ids) }
{
    let mut set = DocSet::empty(alloc, column.ids().len() as u32)?;
    for (id, passes) in truths.iter().enumerate() {
        note_id(column, id as u32, *passes, &mut set);
    }
    Ok(set)
}

// Adds the rows of an id, where it passes.
fn note_id(column: &SegmentColumn, id: u32, passes: bool, set: &mut DocSet)
    requires indexed { column.now.indexed ≡ true }
    requires known { id < count_in column.now.dictionary }
    ensures { set.new ≡ noted_id column.now.ids id set.old passes }
{
    if passes {
        if let Some(rows) = column.docs(id) {
            add_rows(set, rows);
        }
    }
}
