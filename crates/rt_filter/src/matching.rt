ghost use Rattle.std.specs.Prelude.{◌≡◌, IfSome, IfNone, Some, None};
ghost use Rattle.rt_model.specs.Match.{matches, passes, value_at};

use crate::comparing::{compares, is_one_of, lies_between};
use rt_model::{ColumnAt, Condition, Predicate};
use rt_schema::{Row, Value};

/// Whether a row meets a predicate, which `check` took for a schema of the row. Integers compare by
/// value, texts by bytes, false comes before true, and BETWEEN includes both ends.
#[tactic(auto, using(rt_model::proofs::Trees::and_falls, rt_model::proofs::Trees::or_falls))]
pub fn matches(predicate: &Predicate, row: &Row) -> bool
    ensures { result ≡ matches predicate.now row.now }
{
    match predicate.condition() {
        Condition::Compare(column, comparison, literal) => match value_at(row, column) {
            Some(value) => compares(*comparison, value, literal),
            None => false,
        },
        Condition::Between(column, low, high) => match value_at(row, column) {
            Some(value) => lies_between(value, low, high),
            None => false,
        },
        Condition::OneOf(column, literals) => match value_at(row, column) {
            Some(value) => is_one_of(value, literals.as_slice()),
            None => false,
        },
        Condition::NoneOf(column, literals) => match value_at(row, column) {
            Some(value) => !is_one_of(value, literals.as_slice()),
            None => false,
        },
        Condition::Not(part) => !matches(part, row),
        Condition::And(parts) => {
            for part in parts {
                if !matches(part, row) {
                    return false;
                }
            }
            true
        }
        Condition::Or(parts) => {
            for part in parts {
                if matches(part, row) {
                    return true;
                }
            }
            false
        }
    }
}

/// Whether a row meets a query's filter. Every row meets one that is absent.
pub fn passes(filter: &Option<Predicate>, row: &Row) -> bool
    ensures { result ≡ passes filter.now row.now }
{
    match filter {
        Some(predicate) => matches(predicate, row),
        None => true,
    }
}

fn value_at<'a>(row: &'a Row, column: &ColumnAt) -> Option<&'a Value>
    ensures some { IfSome result (λ value. value_at row.now column.now ≡ Some value.now) }
    ensures none { IfNone result (value_at row.now column.now ≡ None) }
{
    row.values.get(column.place as usize)
}
