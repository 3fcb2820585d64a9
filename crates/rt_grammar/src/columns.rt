ghost use Rattle.std.specs.Prelude.{◌≡◌, ◌≤◌, length, nat_lt, IfOk};
ghost use Rattle.rt_schema.specs.Schema.{IsSchema};
ghost use Rattle.rt_grammar.specs.Columns.{place_of, column_at};

use rt_lists::Text;
use rt_model::ColumnAt;
use rt_schema::{Column, Schema};
use std::alloc::{AllocError, Global};

/// A name and its place in a schema: the number of columns, where none has the name.
pub(crate) fn column_at(alloc: Global, schema: &Schema, name: &Text) -> Result<ColumnAt, AllocError>
    requires { IsSchema schema.now }
    ensures { IfOk result (λ column. column ≡ column_at schema.now name.now) }
{
    let place = place_of(name.as_str(), schema.columns.as_slice()) as u32;
    let name = name.copy(alloc)?;
    Ok(ColumnAt { name, place })
}

/// Whether a schema has a column of a name.
pub fn is_column(schema: &Schema, name: &str) -> bool
    ensures { result ≡ nat_lt (place_of name.now schema.now.columns) (length schema.now.columns) }
{
    place_of(name, schema.columns.as_slice()) < schema.columns.len()
}

fn place_of(name: &str, columns: &[Column]) -> usize
    ensures place { result ≡ place_of name.now columns.now }
    ensures within { result ≤ length columns.now }
{
    for (place, column) in columns.iter().enumerate() {
        if name == column.name.as_str() {
            return place;
        }
    }
    columns.len()
}
