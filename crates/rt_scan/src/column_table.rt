ghost use Rattle.rt_seek.specs.Table.{row_at};

use rt_agg::{PlacedRow, ReadTable, TakeScalar, take_same};
use rt_seek::ScanColumn;

/// A table of columns.
#[derive(Clone, Copy)]
pub(crate) struct ColumnTable<'a, C> {
    pub(crate) columns: &'a [C],
}

impl<'a, C: ScanColumn> ReadTable for ColumnTable<'a, C> {
    ghost row_of = { λ t. row_at C.values t.columns.now };

    fn feed<T: TakeScalar>(&self, place: u32, page: &[PlacedRow], taker: &mut T) {
        let place = place as usize;
        if place < self.columns.len() {
            self.columns[place].feed(page, taker);
        } else {
            take_same(page, None, taker);
        }
    }
}
