ghost use Rattle.std.specs.Prelude.{◌≡◌, ℕ, ◌<◌, ◌≤◌, List, length, map, IfOk};
ghost use Rattle.rt_schema.specs.declared.value.Value.{Value as AnyValue};
ghost use Rattle.rt_agg.specs.Paging.{fed};
ghost use Rattle.rt_agg.specs.ValueRef.{value_lent};
ghost use Rattle.rt_seek.specs.ColumnTest.{passes_test};
ghost use Rattle.rt_seek.specs.Scalars.{scalar_on};
ghost use Rattle.rt_seek.specs.Table.{item_at};

use crate::column_test::ColumnTest;
use rt_agg::{PlacedRow, TakeScalar, ValueRef};
use rt_postings::DocSet;
use std::alloc::{AllocError, Global};

/// A column of rows that are scanned.
pub trait ScanColumn {
    /// The value of each row.
    ghost values: { Self → List AnyValue };

    /// The value that an id stands for.
    ghost value_of: { Self → ℕ → AnyValue };

    /// Which rows have values that pass a test. Fails only where memory is refused.
    fn rows_that_pass(&self, alloc: Global, test: &ColumnTest<'_>) -> Result<DocSet, AllocError>
        ensures { IfOk result (λ set. set ≡ map (passes_test test.now) (values self.now)) };

    /// The id of a row's value: of the ids that stand for it the least, so that rows of one value have one id.
    fn id(&self, row: u32) -> u32
        requires { row < length (values self.now) }
        ensures value { value_of self.now result ≡ item_at (values self.now) row }
        ensures least { (other : ℕ) → value_of self.now other ≡ value_of self.now result → result ≤ other };

    /// A row's value.
    fn value(&self, row: u32) -> ValueRef<'_>
        requires { row < length (values self.now) }
        ensures { value_lent result ≡ item_at (values self.now) row };

    /// Hands on the whole numbers of the rows of a page, one after the other: none where a value isn't one, or past the last row.
    fn feed<T: TakeScalar>(&self, page: &[PlacedRow], taker: &mut T)
        ensures { taker.new ≡ fed T.takes (scalar_on (values self.now)) page.now taker.old };
}
