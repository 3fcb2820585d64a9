//! Words of rows and of their places.
ghost use Rattle.std.specs.Prelude.{◌≡◌, map, IfOk};
ghost use Rattle.rt_schema.specs.Value.{kind_of};

use rt_base::Sequence;
use rt_call_schemas::value_in;
use rt_call_words::{Answer, Stop, Words};
use rt_lists::Items;
use rt_schema::{Column, Row};
use rt_upsert::Place;
use std::alloc::Global;

/// A value for each column, with spaces between them, up to the end.
pub(crate) fn row_in(alloc: Global, columns: &[Column], words: &mut Words) -> Result<Row, Stop>
    ensures { IfOk result (λ row. map kind_of row.values ≡ map (λ column. column.kind) columns.now) }
{
    let mut values = Items::new(alloc);
    for column in columns {
        values.push(value_in(alloc, column.kind, words))?;
    }
    words.ended()?;
    Ok(Row { values })
}

/// `Q/ROW`
pub(crate) fn place_in(words: &mut Words) -> Place {
    Place {
        sequence: Sequence(words.count_until('/')),
        row: words.count(),
    }
}

/// Adds `Q/ROW`.
pub(crate) fn write_place(place: Place, answer: &mut Answer) {
    answer.count(place.sequence.0);
    answer.add("/");
    answer.count(place.row);
}
