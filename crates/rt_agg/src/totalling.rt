//! Sums, by the groups' numbers.
ghost use Rattle.std.specs.Prelude.{◌≡◌, slice_index_or};
ghost use Rattle.rt_agg.specs.Accumulators.{with_scalar};
ghost use Rattle.rt_agg.specs.ResultHolder.{join_at, no_rows, summed_at};
ghost use Rattle.rt_agg.specs.Totals.{joined};

use crate::{Scalar, Total};
use rt_lists::Items;

/// The sum of a group; zero of one that wasn't started.
pub(crate) fn sum_at(totals: &Items<Total>, group: usize) -> i128
    ensures { result ≡ (slice_index_or totals.now group no_rows).sum }
{
    match totals.as_slice().get(group) {
        None => 0,
        Some(total) => total.sum(),
    }
}

/// Adds a scalar to the sum of a group, where there is one.
pub(crate) fn add_to_sum(totals: &mut Items<Total>, group: usize, scalar: Option<Scalar>)
    ensures { totals.new ≡ summed_at totals.old group scalar }
{
    if group < totals.len() {
        add_scalar(totals.at_mut(group), scalar);
    }
}

/// Adds the sum of a group of others too.
pub(crate) fn add_sum(totals: &mut Items<Total>, group: usize, others: &Items<Total>, from: usize)
    ensures { totals.new ≡ join_at joined no_rows group totals.old from others.now }
{
    if group < totals.len() && from < others.len() {
        totals.at_mut(group).join(&others.as_slice()[from]);
    }
}

fn add_scalar(total: &mut Total, scalar: Option<Scalar>)
    ensures { total.new ≡ with_scalar scalar total.old }
{
    if let Some(scalar) = scalar {
        total.add(scalar.number());
    }
}
