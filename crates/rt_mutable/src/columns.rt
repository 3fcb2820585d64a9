//! A row more in each of the columns, or in none.
ghost use Rattle.std.specs.Prelude.{◌≡◌, ◌<◌, All, length, map, IfOk, OnOk, OnErr};
ghost use Rattle.rt_schema.specs.Schema.{is_among};
ghost use Rattle.rt_schema.specs.Value.{kind_of};
ghost use Rattle.rt_mutable.specs.Columns.{cell_at, empty_column, with_values, without_last, cut};

use crate::MutableColumn;
use rt_base::limits::MOST_ROWS;
use rt_lists::{Items, Text};
use rt_schema::{Column, Value};
use std::alloc::{AllocError, Global};

/// The columns of a schema with no row; those of some names are indexed.
pub(crate) fn empty_columns(
    alloc: Global,
    columns: &[Column],
    indexed: &[Text],
) -> Result<Items<MutableColumn>, AllocError>
    ensures { IfOk result (λ empty. empty ≡ map (empty_column indexed.now) columns.now) }
{
    let mut empty = Vec::with_capacity(alloc, columns.len())?;
    for column in columns {
        let name = column.name.copy(alloc)?;
        let is_indexed = is_among(&name, indexed);
        empty.push(MutableColumn::new(alloc, name, column.kind, is_indexed))?;
    }
    Ok(Items::of(empty))
}

/// Whether a name is one of some names.
fn is_among(name: &Text, names: &[Text]) -> bool
    ensures { result ≡ is_among name.now names.now }
{
    for other in names {
        if name == other {
            return true;
        }
    }
    false
}

/// Adds the values of a row, one to each column. Where memory is refused, all is as before.
pub(crate) fn index_values(
    alloc: Global,
    columns: &mut [MutableColumn],
    values: &[Value],
) -> Result<(), AllocError>
    requires kinds { map kind_of values.now ≡ map (λ column. column.shape.kind) columns.old }
    requires room { All (λ column. length column.values < MOST_ROWS) columns.old }
    ensures ok { OnOk result (columns.new ≡ with_values columns.old values.now) }
    ensures err { OnErr result (columns.new ≡ columns.old) }
{
    for place in 0..columns.len() {
        let column = &mut columns[place];
        match column.index(alloc, &values[place]) {
            Ok(()) => {}
            Err(refused) => {
                take_back_all(&mut columns[..place]);
                return Err(refused);
            }
        }
    }
    Ok(())
}

/// Takes the last row of each column back.
fn take_back_all(columns: &mut [MutableColumn])
    requires { All (λ column. 0 < length column.values) columns.old }
    ensures { columns.new ≡ map without_last columns.old }
{
    for column in columns.iter_mut() {
        column.take_back();
    }
}

/// Takes the rows from a number on back, in each column.
pub(crate) fn truncate_all(columns: &mut [MutableColumn], rows: usize)
    ensures { columns.new ≡ map (cut rows) columns.old }
{
    for column in columns.iter_mut() {
        column.truncate(rows);
    }
}

/// Copies of the values of a row, by its number.
pub(crate) fn values_of_row(
    alloc: Global,
    columns: &[MutableColumn],
    number: u32,
) -> Result<Items<Value>, AllocError>
    requires { All (λ column. number < length column.values) columns.now }
    ensures { IfOk result (λ values. values ≡ map (cell_at number) columns.now) }
{
    let mut values = Vec::with_capacity(alloc, columns.len())?;
    for column in columns {
        values.push(column.value_in(alloc, number)?)?;
    }
    Ok(Items::of(values))
}
