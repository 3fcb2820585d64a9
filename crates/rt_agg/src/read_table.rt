ghost use Rattle.std.specs.Prelude.{◌≡◌, ℕ};
ghost use Rattle.rt_schema.specs.declared.row.Row.{Row as RowValue};
ghost use Rattle.rt_agg.specs.Paging.{fed};
ghost use Rattle.rt_agg.specs.Reading.{scalar_at};

use crate::take_scalar::take_same;
use crate::{PlacedRow, Scalar, TakeScalar};
use rt_schema::Row;

/// A table whose rows are read column by column, wherever their values lie.
pub trait ReadTable {
    /// The row of a number.
    ghost row_of: { Self → ℕ → RowValue };

    /// Hands on the scalars of a column, row by row of a page; none where a row's value isn't one, or the rows have no such
    /// column.
    fn feed<T: TakeScalar>(&self, place: u32, page: &[PlacedRow], taker: &mut T)
        ensures { taker.new ≡ fed T.takes (λ number. scalar_at (row_of self.now number) place) page.now taker.old };
}

/// A row as a table: each of its rows is this one.
impl ReadTable for Row {
    ghost row_of = { λ row number. row };

    fn feed<T: TakeScalar>(&self, place: u32, page: &[PlacedRow], taker: &mut T) {
        take_same(page, scalar_in(self, place), taker);
    }
}

fn scalar_in(row: &Row, place: u32) -> Option<Scalar>
    ensures { result ≡ scalar_at row.now place }
{
    match row.values.get(place as usize) {
        Some(value) => Scalar::of(value),
        None => None,
    }
}
