ghost use Rattle.std.specs.Prelude.{◌≡◌, ◌&&◌, Option};
ghost use Rattle.rt_model.specs.Checked.{has_extremes, has_sum, kind_at};
ghost use Rattle.rt_sql.specs.Kinds.{is_kind, is_typed_item, are_typed_items, is_typed_filter, is_typed_query};

use rt_filter::{check, kind_at};
use rt_grammar::{ItemAt, Parts};
use rt_model::{Aggregate, ColumnAt, Item, Predicate};
use rt_schema::{Kind, Schema};

/// Whether each column of a query is used as its kind allows.
pub(crate) fn is_typed_query(schema: &Schema, parts: &Parts) -> bool
    ensures { result ≡ is_typed_query schema.now parts.now }
{
    are_typed_items(schema, parts.items.as_slice()) && is_typed_filter(schema, &parts.filter)
}

#[tactic(auto, using(crate::proofs::Answered::fault_is_refused))]
fn is_typed_filter(schema: &Schema, filter: &Option<Predicate>) -> bool
    ensures { result ≡ is_typed_filter schema.now filter.now }
{
    match filter {
        None => true,
        Some(predicate) => check(predicate, schema).is_ok(),
    }
}

fn are_typed_items(schema: &Schema, items: &[ItemAt]) -> bool
    ensures { result ≡ are_typed_items schema.now items.now }
{
    for found in items {
        if !is_typed_item(schema, &found.item) {
            return false;
        }
    }
    true
}

fn is_typed_item(schema: &Schema, item: &Item) -> bool
    ensures { result ≡ is_typed_item schema.now item.now }
{
    match item {
        Item::Column(_column) => true,
        Item::Aggregate(Aggregate::Count) => true,
        Item::Aggregate(Aggregate::Sum(column)) => has_sum(schema, column),
        Item::Aggregate(Aggregate::Min(column)) => has_extremes(schema, column),
        Item::Aggregate(Aggregate::Max(column)) => has_extremes(schema, column),
    }
}

fn has_sum(schema: &Schema, column: &ColumnAt) -> bool
    ensures { result ≡ is_kind has_sum (kind_at schema.now column.now) }
{
    match kind_of(schema, column) {
        Some(Kind::Int | Kind::Long) => true,
        _ => false,
    }
}

// Whether a column has MIN and MAX.
fn has_extremes(schema: &Schema, column: &ColumnAt) -> bool
    ensures { result ≡ is_kind has_extremes (kind_at schema.now column.now) }
{
    match kind_of(schema, column) {
        Some(Kind::Int | Kind::Long | Kind::Time) => true,
        _ => false,
    }
}

#[tactic(auto, using(crate::proofs::Answered::kind_is_answered))]
fn kind_of(schema: &Schema, column: &ColumnAt) -> Option<Kind>
    ensures { result ≡ kind_at schema.now column.now }
{
    kind_at(schema, column).ok()
}
