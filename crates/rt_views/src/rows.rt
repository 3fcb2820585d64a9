//! The rows of a piece that are rows of a schema.
ghost use Rattle.std.specs.Prelude.{◌≡◌, All};
ghost use Rattle.std.specs.List.{list_all};
ghost use Rattle.rt_schema.specs.Row.{IsRowOf};
ghost use Rattle.rt_views.specs.Views.{are_of, is_row_of, rows_if};

use crate::Found;
use rt_schema::{Column, Row, Schema, Value};

/// The rows of a piece, where all are rows of the schema; else none.
#[tactic(auto, using(crate::proofs::ViewRows::if_all, crate::proofs::ViewRows::if_not))]
pub(crate) fn rows_if<'a>(schema: &Schema, piece: &'a Found) -> &'a [Row]
    ensures rows { result.now ≡ rows_if schema.now piece.now.rows }
    ensures right { All (IsRowOf schema.now) result.now }
{
    match &piece.rows {
        Some(served) => {
            let rows = served.rows.as_slice();
            if are_rows(schema, rows) { rows } else { &[] }
        }
        None => &[],
    }
}

// Whether each of some rows has a value of each column's kind.
fn are_rows(schema: &Schema, rows: &[Row]) -> bool
    ensures { result ≡ list_all (is_row_of schema.now) rows.now }
{
    for row in rows {
        if !is_row_of(schema, row) {
            return false;
        }
    }
    true
}

fn is_row_of(schema: &Schema, row: &Row) -> bool
    ensures { result ≡ is_row_of schema.now row.now }
{
    are_of(row.values.as_slice(), schema.columns.as_slice())
}

#[tactic(auto, using(crate::proofs::ViewRows::no_values, crate::proofs::ViewRows::no_columns))]
fn are_of(values: &[Value], columns: &[Column]) -> bool
    ensures { result ≡ are_of values.now columns.now }
{
    match values {
        [] => match columns {
            [] => true,
            [_, ..] => false,
        },
        [value, values @ ..] => match columns {
            [] => false,
            [column, columns @ ..] => value.kind() == column.kind && are_of(values, columns),
        },
    }
}
