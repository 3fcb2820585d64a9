//! The keys of a list, sorted with their places.
ghost use Rattle.std.specs.Prelude.{◌≡◌, ◌<◌, ◌^◌, length, All, IfOk, Some, map, slice_get};
ghost use Rattle.std.specs.List.{range_with_len};
ghost use Rattle.std.specs.List.Sorted.{IsPermutation, IsSortedBy};
ghost use Rattle.std.specs.Ordering.{is_lt};

use super::key::Key;
use std::alloc::{AllocError, Global};
use std::cmp::Ordering;

/// A key of a list, and its place there.
#[derive(Drop)]
pub(crate) struct Placed<K: Key> {
    pub(crate) key: K,
    pub(crate) place: u32,
}

/// The keys of a list, each copied, in their order; each keeps its place beside it.
pub(crate) fn sorted_of<K: Key>(alloc: Global, keys: &[K]) -> Result<Vec<Placed<K>>, AllocError>
    requires { length keys.now < 2 ^ 32 }
    ensures sorted { IfOk result (λ sorted. IsSortedBy K.below (map (λ placed. placed.key) sorted.items)) }
    ensures keys { IfOk result (λ sorted. IsPermutation keys.now (map (λ placed. placed.key) sorted.items)) }
    ensures places { IfOk result (λ sorted. IsPermutation (range_with_len 0 (length keys.now)) (map (λ placed. placed.place) sorted.items)) }
    ensures beside { IfOk result (λ sorted. All (λ placed. slice_get keys.now placed.place ≡ Some placed.key) sorted.items) }
{
    let mut sorted = placed_of(alloc, keys)?;
    sorted.sort_unstable_by(|a, b| compare(&a.key, &b.key));
    Ok(sorted)
}

// Each key of a list, copied, with its place.
fn placed_of<K: Key>(alloc: Global, keys: &[K]) -> Result<Vec<Placed<K>>, AllocError>
    requires { length keys.now < 2 ^ 32 }
    ensures keys { IfOk result (λ all. map (λ placed. placed.key) all.items ≡ keys.now) }
    ensures places { IfOk result (λ all. map (λ placed. placed.place) all.items ≡ range_with_len 0 (length keys.now)) }
{
    let mut all = Vec::with_capacity(alloc, keys.len())?;
    for (place, key) in keys.iter().enumerate() {
        let key = key.copy(alloc)?;
        let place = place as u32;
        all.push(Placed { key, place })?;
    }
    Ok(all)
}

// How two keys stand in the order.
fn compare<K: Key>(a: &K, b: &K) -> Ordering
    ensures { is_lt result ≡ K.below a.now b.now }
{
    if a.below(b) {
        Ordering::Less
    } else if b.below(a) {
        Ordering::Greater
    } else {
        Ordering::Equal
    }
}
