ghost use Rattle.std.specs.Prelude.{◌≡◌, ℕ, ◌<◌, ◌≤◌, All, length, map, IfOk};
ghost use Rattle.rt_agg.specs.Paging.{fed};
ghost use Rattle.rt_agg.specs.ValueRef.{value_lent};
ghost use Rattle.rt_mutable.specs.Arrivals.{arrivals_of};
ghost use Rattle.rt_mutable.specs.Column.{same_value, values_in};
ghost use Rattle.rt_seek.specs.ColumnTest.{passes_test};
ghost use Rattle.rt_seek.specs.ConsumingColumn.{first_values, arrival_of};
ghost use Rattle.rt_seek.specs.Scalars.{led, scalar_on};
ghost use Rattle.rt_seek.specs.Table.{item_at};

use crate::arrived_scalars::{ArrivedInts, ArrivedLongs, ArrivedTimes, int_scalar, long_scalar};
use crate::column_test::ColumnTest;
use crate::held_scalars::time_scalar;
use crate::row_sets::rows_with;
use crate::scalars_by_id::feed_led;
use crate::scan_column::ScanColumn;
use crate::seeking::rows_sought;
use crate::truths::truths_of_keys;
use rt_agg::{PlacedRow, TakeScalar, ValueRef, take_same};
use rt_mutable::{ColumnValues, MutableColumn};
use rt_postings::DocSet;
use std::alloc::{AllocError, Global};

/// A column of the first rows of a consuming segment.
#[derive(Clone, Copy)]
pub struct ConsumingColumn<'a> {
    pub column: &'a MutableColumn,
    pub rows: u32,
    ghost few: { length column.now.values ≤ 1000000 },
}

impl<'a> ScanColumn for ConsumingColumn<'a> {
    ghost values = { λ c. first_values c.column.now c.rows };

    ghost value_of = { λ c. arrival_of c.column.now };

    fn rows_that_pass(&self, alloc: Global, test: &ColumnTest<'_>) -> Result<DocSet, AllocError> {
        first_rows(alloc, self.column, self.rows, test)
    }

    fn id(&self, row: u32) -> u32 {
        first_id(self.column, self.rows, row)
    }

    fn value(&self, row: u32) -> ValueRef<'_> {
        first_value(self.column, self.rows, row)
    }

    fn feed<T: TakeScalar>(&self, page: &[PlacedRow], taker: &mut T) {
        feed_first(self.column, self.rows, page, taker);
    }
}

// Which of the first rows pass a test.
fn first_rows(
    alloc: Global,
    column: &MutableColumn,
    rows: u32,
    test: &ColumnTest<'_>,
) -> Result<DocSet, AllocError>
    requires { length column.now.values ≤ 1000000 }
    ensures { IfOk result (λ set. set ≡ map (passes_test test.now) (first_values column.now rows)) }
{
    if column.is_indexed() {
        if let Some(set) = rows_sought(alloc, column, rows, test)? {
            return Ok(set);
        }
    }
    rows_by_ids(alloc, column, rows, test)
}

// Which of the first rows pass a test, by the test of each distinct value.
fn rows_by_ids(
    alloc: Global,
    column: &MutableColumn,
    rows: u32,
    test: &ColumnTest<'_>,
) -> Result<DocSet, AllocError>
    requires { length column.now.values ≤ 1000000 }
    ensures { IfOk result (λ set. set ≡ map (passes_test test.now) (first_values column.now rows)) }
{
    let truths = truths_in(alloc, column.values(), test)?;
    let ids = column.ids();
    let count = ids.len().min(rows as usize);
    rows_with(alloc, &truths, &ids[..count])
}

// Which values pass a test, by their ids.
fn truths_in(
    alloc: Global,
    values: &ColumnValues,
    test: &ColumnTest<'_>,
) -> Result<Vec<bool>, AllocError>
    ensures { IfOk result (λ truths. truths.items ≡ map (passes_test test.now) (arrivals_of same_value (values_in values.now))) }
{
    match values {
        ColumnValues::Int(arrivals) => truths_of_keys(alloc, arrivals.keys(), test),
        ColumnValues::Long(arrivals) => truths_of_keys(alloc, arrivals.keys(), test),
        ColumnValues::Text(arrivals) => truths_of_keys(alloc, arrivals.keys(), test),
        ColumnValues::Bool(arrivals) => truths_of_keys(alloc, arrivals.keys(), test),
        ColumnValues::Time(arrivals) => truths_of_keys(alloc, arrivals.keys(), test),
    }
}

fn first_id(column: &MutableColumn, rows: u32, row: u32) -> u32
    requires { row < length (first_values column.now rows) }
    ensures value { arrival_of column.now result ≡ item_at (first_values column.now rows) row }
    ensures least { (other : ℕ) → arrival_of column.now other ≡ arrival_of column.now result → result ≤ other }
{
    column.ids()[row as usize]
}

fn first_value(column: &MutableColumn, rows: u32, row: u32) -> ValueRef<'_>
    requires { row < length (first_values column.now rows) }
    ensures { value_lent result ≡ item_at (first_values column.now rows) row }
{
    value_with(column.values(), column.ids()[row as usize])
}

fn value_with(values: &ColumnValues, id: u32) -> ValueRef<'_>
    requires { id < length (arrivals_of same_value (values_in values.now)) }
    ensures { value_lent result ≡ item_at (arrivals_of same_value (values_in values.now)) id }
{
    match values {
        ColumnValues::Int(arrivals) => ValueRef::of_scalar(int_scalar(arrivals.key(id))),
        ColumnValues::Long(arrivals) => ValueRef::of_scalar(long_scalar(arrivals.key(id))),
        ColumnValues::Text(arrivals) => ValueRef::Text(arrivals.key(id).as_str()),
        ColumnValues::Bool(arrivals) => ValueRef::Bool(*arrivals.key(id)),
        ColumnValues::Time(arrivals) => ValueRef::of_scalar(time_scalar(arrivals.key(id))),
    }
}

// Hands on the whole numbers of the rows of a page, none past the first rows.
fn feed_first<T: TakeScalar>(column: &MutableColumn, rows: u32, page: &[PlacedRow], taker: &mut T)
    ensures { taker.new ≡ fed T.takes (scalar_on (first_values column.now rows)) page.now taker.old }
{
    let ids = column.ids();
    let count = ids.len().min(rows as usize);
    feed_arrived(column.values(), &ids[..count], page, taker);
}

// Hands on the whole numbers of the rows of a page, by the kind of values.
fn feed_arrived<T: TakeScalar>(
    values: &ColumnValues,
    ids: &[u32],
    page: &[PlacedRow],
    taker: &mut T,
)
    requires { All (λ id. id < length (arrivals_of same_value (values_in values.now))) ids.now }
    ensures { taker.new ≡ fed T.takes (scalar_on (led (arrivals_of same_value (values_in values.now)) ids.now)) page.now taker.old }
{
    match values {
        ColumnValues::Int(arrivals) => {
            let keys = arrivals.keys();
            feed_led(&ArrivedInts { keys }, ids, page, taker);
        }
        ColumnValues::Long(arrivals) => {
            let keys = arrivals.keys();
            feed_led(&ArrivedLongs { keys }, ids, page, taker);
        }
        ColumnValues::Text(_) => take_same(page, None, taker),
        ColumnValues::Bool(_) => take_same(page, None, taker),
        ColumnValues::Time(arrivals) => {
            let keys = arrivals.keys();
            feed_led(&ArrivedTimes { keys }, ids, page, taker);
        }
    }
}
