//! The query that files are scanned for: what a query asks, and that the time is at or before the boundary.
ghost use Rattle.std.specs.Prelude.{◌≡◌, IfOk};
ghost use Rattle.rt_hybrid.specs.Timed.{and_time, time_at_most, timed};

use rt_lists::Copied;
use rt_model::{ColumnAt, Comparison, Condition, Literal, Predicate, Query};
use std::alloc::{AllocError, Global};

/// A query that asks besides that the time in a column is at most the boundary.
pub(crate) fn timed(
    alloc: Global,
    query: &Query,
    column: ColumnAt,
    boundary: i64,
) -> Result<Query, AllocError>
    ensures { IfOk result (λ asked. asked ≡ timed query.now column boundary) }
{
    let filter = and_time(alloc, &query.filter, time_at_most(column, boundary))?;
    Ok(Query {
        items: query.items.copied(alloc)?,
        filter: Some(filter),
        groups: query.groups.copied(alloc)?,
        order: query.order.copied(alloc)?,
        limit: query.limit,
    })
}

fn time_at_most(column: ColumnAt, boundary: i64) -> Predicate
    ensures { result ≡ time_at_most column boundary }
{
    Predicate::of(Condition::Compare(column, Comparison::AtMost, Literal::Int(boundary)))
}

fn and_time(
    alloc: Global,
    filter: &Option<Predicate>,
    time: Predicate,
) -> Result<Predicate, AllocError>
    ensures { IfOk result (λ both. both ≡ and_time filter.now time) }
{
    match filter {
        None => Ok(time),
        Some(filter) => {
            let mut parts = Vec::new(alloc);
            parts.push(time)?;
            parts.push(filter.copied(alloc)?)?;
            Ok(Predicate::of(Condition::And(parts)))
        }
    }
}
