ghost use Rattle.std.specs.Prelude.{◌≡◌, true};
ghost use Rattle.rt_filter.specs.Refusal.{kind_or_refused, refused_by};
ghost use Rattle.rt_model.specs.Checked.{
  all_suit,
  asks_order,
  fault_of,
  has_order,
  kind_at,
  suits,
  test_fault,
};

use crate::FilterRefused;
use rt_model::{ColumnAt, Comparison, Condition, Literal, Predicate};
use rt_schema::{Kind, Schema};
use std::slice;

/// Whether a predicate fits a schema: each test names a column that the schema has by that name at that
/// place (else NoColumn), with literals of its kind, and asks no order of BOOLEAN (else WrongType).
/// The leftmost fault is answered.
#[tactic(auto, using(rt_model::proofs::Trees::and_falls, rt_model::proofs::Trees::or_falls))]
pub fn check(predicate: &Predicate, schema: &Schema) -> Result<(), FilterRefused>
    ensures { result ≡ refused_by (fault_of schema.now predicate.now) }
{
    match predicate.condition() {
        Condition::Compare(column, comparison, literal) => {
            let ordered = asks_order(*comparison);
            check_test(schema, column, ordered, slice::from_ref(literal))
        }
        Condition::Between(column, low, high) => {
            check_test(schema, column, true, slice::from_ref(low))?;
            check_test(schema, column, true, slice::from_ref(high))
        }
        Condition::OneOf(column, literals) => {
            check_test(schema, column, false, literals.as_slice())
        }
        Condition::NoneOf(column, literals) => {
            check_test(schema, column, false, literals.as_slice())
        }
        Condition::Not(part) => check(part, schema),
        Condition::And(parts) => {
            for part in parts {
                check(part, schema)?;
            }
            Ok(())
        }
        Condition::Or(parts) => {
            for part in parts {
                check(part, schema)?;
            }
            Ok(())
        }
    }
}

// A test on a column, which may ask for an order.
fn check_test(
    schema: &Schema,
    column: &ColumnAt,
    ordered: bool,
    literals: &[Literal],
) -> Result<(), FilterRefused>
    ensures { result ≡ refused_by (test_fault (kind_at schema.now column.now) ordered literals.now) }
{
    let kind = kind_at(schema, column)?;
    if (has_order(kind) || !ordered) && all_suit(kind, literals) {
        Ok(())
    } else {
        Err(FilterRefused::WrongType)
    }
}

/// The kind of the column that a query names: NoColumn where the schema has none of that name at that place.
pub fn kind_at(schema: &Schema, column: &ColumnAt) -> Result<Kind, FilterRefused>
    ensures { result ≡ kind_or_refused (kind_at schema.now column.now) }
{
    match schema.columns.get(column.place as usize) {
        Some(found) => if found.name == column.name {
            Ok(found.kind)
        } else {
            Err(FilterRefused::NoColumn)
        },
        None => Err(FilterRefused::NoColumn),
    }
}

fn has_order(kind: Kind) -> bool
    ensures { result ≡ has_order kind }
{
    kind != Kind::Bool
}

fn asks_order(comparison: Comparison) -> bool
    ensures { result ≡ asks_order comparison }
{
    match comparison {
        Comparison::Equal | Comparison::NotEqual => false,
        Comparison::Less | Comparison::AtMost => true,
        Comparison::Greater | Comparison::AtLeast => true,
    }
}

fn suits(kind: Kind, literal: &Literal) -> bool
    ensures { result ≡ suits kind literal.now }
{
    match (kind, literal) {
        (Kind::Int | Kind::Long | Kind::Time, Literal::Int(_)) => true,
        (Kind::Text, Literal::Text(_)) => true,
        (Kind::Bool, Literal::Bool(_)) => true,
        _other => false,
    }
}

fn all_suit(kind: Kind, literals: &[Literal]) -> bool
    ensures { result ≡ all_suit kind literals.now }
{
    for literal in literals {
        if !suits(kind, literal) {
            return false;
        }
    }
    true
}
