//! The rows of an indexed column of a consuming segment that equal literals.
ghost use Rattle.std.specs.Prelude.{◌≡◌, true, map, IfOk, IfSome};
ghost use Rattle.rt_model.specs.Match.{is_one_of};
ghost use Rattle.rt_seek.specs.ColumnTest.{passes_test};
ghost use Rattle.rt_seek.specs.ConsumingColumn.{first_values};
ghost use Rattle.rt_seek.specs.Sought.{value_sought};

use crate::column_test::ColumnTest;
use crate::comparable::Comparable;
use crate::row_sets::add_rows;
use rt_lists::Text;
use rt_model::{Comparison, Literal};
use rt_mutable::MutableColumn;
use rt_postings::DocSet;
use rt_schema::{Kind, Value};
use std::alloc::{AllocError, Global};
use std::slice;

/// Which of the first rows pass a test for equality, by the rows that the column keeps of each value. None where the test is
/// another one, or where a literal is no value of the column's kind. Fails only where memory is refused.
pub(crate) fn rows_sought(
    alloc: Global,
    column: &MutableColumn,
    rows: u32,
    test: &ColumnTest<'_>,
) -> Result<Option<DocSet>, AllocError>
    requires { column.now.shape.indexed ≡ true }
    ensures { IfOk result (λ found. IfSome found (λ set. set ≡ map (passes_test test.now) (first_values column.now rows))) }
{
    match test {
        ColumnTest::Compare(Comparison::Equal, literal) => {
            rows_of_one(alloc, column, rows, slice::from_ref(*literal))
        }
        ColumnTest::OneOf(literals) => rows_of_one(alloc, column, rows, literals),
        _other => Ok(None),
    }
}

// Which of the first rows equal one of the literals.
fn rows_of_one(
    alloc: Global,
    column: &MutableColumn,
    rows: u32,
    literals: &[Literal],
) -> Result<Option<DocSet>, AllocError>
    requires { column.now.shape.indexed ≡ true }
    ensures { IfOk result (λ found. IfSome found (λ set. set ≡ map (λ v. is_one_of v literals.now) (first_values column.now rows))) }
{
    let values = column.values();
    let count = values.rows().min(rows as usize);
    let mut set = DocSet::empty(alloc, count as u32)?;
    for literal in literals {
        match value_sought(alloc, values.kind(), literal)? {
            Some(value) => add_rows(&mut set, column.docs_equal(&value)),
            None => return Ok(None),
        }
    }
    Ok(Some(set))
}

// The value of a kind that equals a literal, where there is one.
fn value_sought(alloc: Global, kind: Kind, literal: &Literal) -> Result<Option<Value>, AllocError>
    ensures { IfOk result (λ value. value ≡ value_sought kind literal.now) }
{
    match kind {
        Kind::Int => Ok(i32::key_of(alloc, literal)?.map(Value::Int)),
        Kind::Long => Ok(i64::key_of(alloc, literal)?.map(Value::Long)),
        Kind::Text => Ok(Text::key_of(alloc, literal)?.map(Value::Text)),
        Kind::Bool => Ok(bool::key_of(alloc, literal)?.map(Value::Bool)),
        Kind::Time => Ok(i64::key_of(alloc, literal)?.map(Value::Time)),
    }
}
