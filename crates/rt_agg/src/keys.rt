ghost use Rattle.std.specs.Prelude.{◌≡◌, IfOk};
ghost use Rattle.rt_model.specs.Aggregate.{key_of};
ghost use Rattle.rt_model.specs.Match.{value_in};
ghost use Rattle.rt_agg.specs.ValueRef.{value_lent};

use crate::{GroupKey, ValueRef};
use rt_lists::Items;
use rt_model::ColumnAt;
use rt_schema::{Row, Value};
use std::alloc::{AllocError, Global};

/// The key of a row's group.
pub(crate) fn key_of_row(
    alloc: Global,
    columns: &[ColumnAt],
    row: &Row,
) -> Result<GroupKey, AllocError>
    ensures { IfOk result (λ key. key ≡ key_of columns.now row.now) }
{
    match columns {
        [column] => GroupKey::of_one(alloc, value_of_row(column, row)),
        _ => Ok(GroupKey::of(values_of_row(alloc, columns, row)?)),
    }
}

fn values_of_row(alloc: Global, columns: &[ColumnAt], row: &Row) -> Result<Items<Value>, AllocError>
    ensures { IfOk result (λ values. values ≡ key_of columns.now row.now) }
{
    let mut values = Items::new(alloc);
    for column in columns {
        values.push(value_of_row(column, row).copied(alloc)?)?;
    }
    Ok(values)
}

fn value_of_row<'a>(column: &ColumnAt, row: &'a Row) -> ValueRef<'a>
    ensures { value_lent result ≡ value_in row.now column.now }
{
    match row.values.get(column.place as usize) {
        Some(value) => ValueRef::of(value),
        None => ValueRef::Bool(false),
    }
}
