//! All groups by ORDER BY, found by their places without a copy of what isn't asked for.
ghost use Rattle.std.specs.Prelude.{◌≡◌, map, IfOk};
ghost use Rattle.std.specs.List.{range_with_len};
ghost use Rattle.std.specs.List.Sorted.{IsPermutation, IsSortedBy};
ghost use Rattle.std.specs.Ordering.{is_lt};
ghost use Rattle.rt_model.specs.Aggregate.{result_cmp};
ghost use Rattle.rt_agg.specs.Ranking.{ranked_within};

use crate::group_table::GroupTable;
use rt_model::OrderKey;
use std::alloc::{AllocError, Global};
use std::cmp::Ordering;

/// The places of so many groups.
pub(crate) fn all_places(alloc: Global, count: usize) -> Result<Vec<usize>, AllocError>
    ensures { IfOk result (λ places. places.items ≡ map (λ p. p) (range_with_len 0 count)) }
{
    let mut places = Vec::with_capacity(alloc, count)?;
    for place in 0..count {
        places.push(place)?;
    }
    Ok(places)
}

// How the groups at two places stand; a place past the last group is that of the last.
fn compare_at(
    order: &[OrderKey],
    width: usize,
    table: &GroupTable,
    one: usize,
    other: usize,
) -> Ordering
    ensures { result ≡ result_cmp order.now (ranked_within width table.now.entries one) (ranked_within width table.now.entries other) }
{
    let count = table.len();
    if count == 0 {
        return Ordering::Equal;
    }
    let last = count - 1;
    table.compare(order, width, one.min(last), other.min(last))
}

/// Puts the places of groups into the order of ORDER BY, and where that ties into the order of the groups' keys.
pub(crate) fn sort(order: &[OrderKey], width: usize, table: &GroupTable, places: &mut Vec<usize>)
    ensures permutation { IsPermutation places.old.items places.new.items }
    ensures sorted { IsSortedBy (λ a b. is_lt (result_cmp order.now (ranked_within width table.now.entries a) (ranked_within width table.now.entries b))) places.new.items }
{
    places.sort_unstable_by(|a, b| compare_at(order, width, table, *a, *b));
}
