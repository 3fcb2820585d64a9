//! The columns of GROUP BY in a key.
ghost use Rattle.std.specs.Prelude.{◌≡◌, IfOk};
ghost use Rattle.rt_model.specs.Aggregate.{value_of_key};
ghost use Rattle.rt_model.specs.Values.{value_cmp};
ghost use Rattle.rt_agg.specs.ValueRef.{value_lent};

use crate::{GroupKey, ValueRef};
use rt_model::ColumnAt;
use rt_schema::Value;
use std::alloc::{AllocError, Global};
use std::cmp::Ordering;

/// The value of a column in a key of these columns; false where the key lacks it.
pub(crate) fn value_of_key<'a>(
    columns: &[ColumnAt],
    key: &'a GroupKey,
    column: &ColumnAt,
) -> ValueRef<'a>
    ensures { value_lent result ≡ value_of_key columns.now key.now column.now }
{
    for (place, group) in columns.iter().enumerate() {
        if key.len() <= place {
            return ValueRef::Bool(false);
        }
        if group.place == column.place {
            return key.at(place);
        }
    }
    ValueRef::Bool(false)
}

/// A copy of the value of a column in a key.
pub(crate) fn copy_of_key(
    alloc: Global,
    columns: &[ColumnAt],
    key: &GroupKey,
    column: &ColumnAt,
) -> Result<Value, AllocError>
    ensures { IfOk result (λ value. value ≡ value_of_key columns.now key.now column.now) }
{
    value_of_key(columns, key, column).copied(alloc)
}

/// How two keys stand by a column.
pub(crate) fn compare_by_column(
    columns: &[ColumnAt],
    column: &ColumnAt,
    one: &GroupKey,
    other: &GroupKey,
) -> Ordering
    ensures { result ≡ value_cmp (value_of_key columns.now one.now column.now) (value_of_key columns.now other.now column.now) }
{
    let one = value_of_key(columns, one, column);
    let other = value_of_key(columns, other, column);
    one.compare(other)
}
