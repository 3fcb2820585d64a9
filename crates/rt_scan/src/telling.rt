//! The groups that a query takes of a segment, where a summary of it tells them.
ghost use Rattle.std.specs.Prelude.{◌≡◌, ◌↔◌, ◌<◌, ◌∷◌, [], Some, length, map, IfOk, IfSome, IsTrue};
ghost use Rattle.rt_model.specs.Aggregate.{taken};
ghost use Rattle.rt_segment.specs.Segment.{rows_of};
ghost use Rattle.rt_agg.specs.Grouped.{Holds};
ghost use Rattle.rt_scan.specs.Summaries.{IsSummary, IsTestOf, is_asked, passes_key};

use crate::key_test::KeyTest;
use rt_agg::{GroupKey, Groups, PickRefused};
use rt_lists::Items;
use rt_model::{ColumnAt, Condition, Predicate, Query};
use rt_segment::Sealed;
use std::alloc::{AllocError, Global};

/// The groups that a query takes of a segment, where a summary of it tells them: it groups by just the summary's column, or
/// not at all, and its filter is at most a comparison of this column with a literal.
pub(crate) fn told(
    alloc: Global,
    query: &Query,
    file: &Sealed,
    summary: &Groups,
) -> Result<Groups, PickRefused>
    requires { IsSummary file.now summary.now }
    ensures { IfOk result (Holds query.now (taken query.now (rows_of file.now))) }
{
    match summary.columns() {
        [column] if (column.place as usize) < file.columns().len() => {
            told_by(alloc, query, file, summary, column)
        }
        _ => Err(PickRefused::Untold),
    }
}

fn told_by(
    alloc: Global,
    query: &Query,
    file: &Sealed,
    summary: &Groups,
    column: &ColumnAt,
) -> Result<Groups, PickRefused>
    requires summary { IsSummary file.now summary.now }
    requires column { summary.now.columns ≡ column.now ∷ [] }
    requires within { column.now.place < length file.now.columns }
    ensures { IfOk result (Holds query.now (taken query.now (rows_of file.now))) }
{
    if !is_asked(query, column) {
        return Err(PickRefused::Untold);
    }
    match test_of(&query.filter, column) {
        None => Err(PickRefused::Untold),
        Some(test) => {
            let marks = marks_of(alloc, &test, summary.keys())?;
            let groups = Groups::pick(alloc, query, summary, marks.as_slice())?;
            Ok(groups)
        }
    }
}

// Whether a query's groups can come of those by a column.
fn is_asked(query: &Query, column: &ColumnAt) -> bool
    ensures { result ≡ is_asked query.now column.now }
{
    match query.groups.as_slice() {
        [] => query.filter.is_some(),
        [by] => by.place == column.place,
        _ => false,
    }
}

// The test on a column that a filter is, where it is one.
fn test_of<'a>(filter: &'a Option<Predicate>, column: &ColumnAt) -> Option<KeyTest<'a>>
    ensures { IfSome result (IsTestOf filter.now column.now) }
{
    match filter {
        None => Some(KeyTest::Any),
        Some(predicate) => comparison_of(predicate, column),
    }
}

fn comparison_of<'a>(predicate: &'a Predicate, column: &ColumnAt) -> Option<KeyTest<'a>>
    ensures { IfSome result (IsTestOf (Some predicate.now) column.now) }
{
    match predicate.condition() {
        Condition::Compare(at, comparison, literal) if is_same(at, column) => {
            Some(KeyTest::Compare(*comparison, literal))
        }
        _ => None,
    }
}

fn is_same(one: &ColumnAt, other: &ColumnAt) -> bool
    ensures { IsTrue result ↔ (one.now ≡ other.now) }
{
    one == other
}

// Which keys pass a test.
fn marks_of(alloc: Global, test: &KeyTest<'_>, keys: &[GroupKey]) -> Result<Items<bool>, AllocError>
    ensures { IfOk result (λ marks. marks ≡ map (passes_key test.now) keys.now) }
{
    let mut marks = Items::new(alloc);
    for key in keys {
        marks.push(test.passes(key))?;
    }
    Ok(marks)
}
