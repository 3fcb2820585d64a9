//! The rows that meet a predicate, as a set.
ghost use Rattle.std.specs.Prelude.{◌≡◌, All, length, map, IfOk};
ghost use Rattle.rt_model.specs.Match.{matches, meets, passes, value_at};
ghost use Rattle.rt_seek.specs.ColumnTest.{passes_test};
ghost use Rattle.rt_seek.specs.Table.{rows_by};

use rt_model::{ColumnAt, Condition, Predicate};
use rt_postings::DocSet;
use rt_seek::{ColumnTest, ScanColumn, all_rows};
use std::alloc::{AllocError, Global};

/// Which of so many rows pass a filter. Fails only where memory is refused.
pub(crate) fn rows_that_pass<C: ScanColumn>(
    alloc: Global,
    columns: &[C],
    rows: u32,
    filter: &Option<Predicate>,
) -> Result<DocSet, AllocError>
    requires { All (λ column. length (C.values column) ≡ rows) columns.now }
    ensures { IfOk result (λ set. set ≡ map (passes filter.now) (rows_by C.values columns.now rows)) }
{
    match filter {
        None => all_rows(alloc, rows),
        Some(predicate) => rows_that_match(alloc, columns, rows, predicate),
    }
}

/// Which of so many rows meet a predicate. Fails only where memory is refused.
#[tactic(auto, using(rt_model::proofs::Trees::and_falls, rt_model::proofs::Trees::or_falls))]
pub(crate) fn rows_that_match<C: ScanColumn>(
    alloc: Global,
    columns: &[C],
    rows: u32,
    predicate: &Predicate,
) -> Result<DocSet, AllocError>
    requires { All (λ column. length (C.values column) ≡ rows) columns.now }
    ensures { IfOk result (λ set. set ≡ map (matches predicate.now) (rows_by C.values columns.now rows)) }
{
    match predicate.condition() {
        Condition::Compare(column, comparison, literal) => {
            let test = ColumnTest::Compare(*comparison, literal);
            rows_of_test(alloc, columns, rows, column, &test)
        }
        Condition::Between(column, low, high) => {
            let test = ColumnTest::Between(low, high);
            rows_of_test(alloc, columns, rows, column, &test)
        }
        Condition::OneOf(column, literals) => {
            let test = ColumnTest::OneOf(literals.as_slice());
            rows_of_test(alloc, columns, rows, column, &test)
        }
        Condition::NoneOf(column, literals) => {
            let test = ColumnTest::NoneOf(literals.as_slice());
            rows_of_test(alloc, columns, rows, column, &test)
        }
        Condition::Not(part) => {
            let mut set = rows_that_match(alloc, columns, rows, part)?;
            set.not();
            Ok(set)
        }
        Condition::And(parts) => {
            let mut set = all_rows(alloc, rows)?;
            for part in parts {
                let others = rows_that_match(alloc, columns, rows, part)?;
                set.and(&others);
            }
            Ok(set)
        }
        Condition::Or(parts) => {
            let mut set = DocSet::empty(alloc, rows)?;
            for part in parts {
                let others = rows_that_match(alloc, columns, rows, part)?;
                set.or(&others);
            }
            Ok(set)
        }
    }
}

// Which of so many rows pass a test on a column.
fn rows_of_test<C: ScanColumn>(
    alloc: Global,
    columns: &[C],
    rows: u32,
    column: &ColumnAt,
    test: &ColumnTest<'_>,
) -> Result<DocSet, AllocError>
    requires { All (λ column. length (C.values column) ≡ rows) columns.now }
    ensures { IfOk result (λ set. set ≡ map (λ row. meets (passes_test test.now) (value_at row column.now)) (rows_by C.values columns.now rows)) }
{
    let place = column.place as usize;
    if place < columns.len() {
        columns[place].rows_that_pass(alloc, test)
    } else {
        DocSet::empty(alloc, rows)
    }
}
