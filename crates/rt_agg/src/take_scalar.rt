ghost use Rattle.std.specs.Prelude.{◌≡◌, ℕ, Option};
ghost use Rattle.rt_agg.specs.declared.scalar.Scalar.{Scalar as AnyScalar};
ghost use Rattle.rt_agg.specs.Paging.{fed};

use crate::{PlacedRow, Scalar};

/// What takes the scalars of a column, each into a group.
pub trait TakeScalar {
    /// What it is after one more scalar of a group.
    ghost takes: { Self → ℕ → Option AnyScalar → Self };

    /// Takes one more scalar of a group.
    fn take(&mut self, group: usize, scalar: Option<Scalar>)
        ensures { self.new ≡ takes self.old group scalar };
}

/// Hands on one scalar, the same for each row of a page.
pub fn take_same<T: TakeScalar>(page: &[PlacedRow], scalar: Option<Scalar>, taker: &mut T)
    ensures { taker.new ≡ fed T.takes (λ number. scalar) page.now taker.old }
{
    for placed in page {
        taker.take(placed.group, scalar);
    }
}
