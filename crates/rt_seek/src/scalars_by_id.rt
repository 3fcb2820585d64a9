//! The whole numbers that ids stand for.
ghost use Rattle.std.specs.Prelude.{◌≡◌, ℕ, ◌<◌, All, List};
ghost use Rattle.rt_schema.specs.declared.value.Value.{Value as AnyValue};
ghost use Rattle.rt_agg.specs.Paging.{fed};
ghost use Rattle.rt_seek.specs.Scalars.{led, scalar_on};

use rt_agg::{PlacedRow, Scalar, TakeScalar};

/// Values of one kind by their ids.
pub(crate) trait ScalarsById {
    /// The values.
    ghost values: { Self → List AnyValue };

    /// How many there are.
    ghost count: { Self → ℕ };

    /// The value of an id, where it is a whole number.
    fn scalar(&self, id: u32) -> Option<Scalar>
        requires { id < count self.now }
        ensures { result ≡ scalar_on (values self.now) id };
}

/// Hands on the whole numbers of the rows of a page, whose values are told by ids.
pub(crate) fn feed_led<V: ScalarsById, T: TakeScalar>(
    values: &V,
    ids: &[u32],
    page: &[PlacedRow],
    taker: &mut T,
)
    requires { All (λ id. id < V.count values.now) ids.now }
    ensures { taker.new ≡ fed T.takes (scalar_on (led (V.values values.now) ids.now)) page.now taker.old }
{
    for placed in page {
        taker.take(placed.group, scalar_led(values, ids, placed.row));
    }
}

fn scalar_led<V: ScalarsById>(values: &V, ids: &[u32], row: u32) -> Option<Scalar>
    requires { All (λ id. id < V.count values.now) ids.now }
    ensures { result ≡ scalar_on (led (V.values values.now) ids.now) row }
{
    let row = row as usize;
    if row < ids.len() {
        values.scalar(ids[row])
    } else {
        None
    }
}
