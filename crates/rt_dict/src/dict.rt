ghost use Rattle.std.specs.Prelude.{◌≡◌, ℕ, ◌+◌, ◌^◌, ◌<◌, ◌≤◌, ◌↔◌, true, false, [], ◌∷◌, ◌++◌, length, All, IfOk, OnOk, OnErr, IsTrue, Some, if◌then◌else◌, slice_get, slice_index, map};
ghost use Rattle.std.specs.List.Sorted.{IsPartitionPoint, IsSortedBy};
ghost use Rattle.rt_dict.specs.Values.{IsAscending, AreDistinctValues, AreIdsOf, is_past_last};
ghost use Rattle.rt_dict.specs.Range.{starts_by, ends_after, IsWithin};

use super::edge::Edge;
use super::identified::Identified;
use super::key::Key;
use super::placed::{Placed, sorted_of};
use rt_lists::Items;
use std::alloc::{AllocError, Global};
use std::marker::Model;

/// The distinct values of a column, ascending. The id of a value is its place.
#[derive(Drop)]
pub struct Dict<K: Key> {
    values: Vec<K>,
}

impl<K: Key> Model for Dict<K> {
    ghost use Rattle.std.specs.Prelude.{List, length, ◌<◌, ◌^◌};
    ghost use Rattle.rt_dict.specs.Values.{IsAscending};

    ghost Value = { List K };

    ghost view = { λ d. d.values.items };

    ghost invariant = { λ d. (length d.values.items < 2 ^ 32) × IsAscending K.below d.values.items };
}

impl<K: Key> Dict<K> {
    /// The dictionary of the distinct values of a list. Fails only where memory is refused.
    pub fn build(alloc: Global, values: &[K]) -> Result<Self, AllocError>
        requires { length values.now < 2 ^ 32 }
        ensures { IfOk result (AreDistinctValues K.below values.now) }
    {
        let identified = Dict::identify(alloc, values)?;
        Ok(identified.dictionary)
    }

    /// The dictionary of the distinct values of a list, and the id of each value of the list. Fails only where
    /// memory is refused.
    pub fn identify(alloc: Global, values: &[K]) -> Result<Identified<K>, AllocError>
        requires { length values.now < 2 ^ 32 }
        ensures distinct { IfOk result (λ identified. AreDistinctValues K.below values.now identified.dictionary) }
        ensures ids { IfOk result (λ identified. AreIdsOf identified.dictionary values.now identified.ids) }
    {
        let sorted = sorted_of(alloc, values)?;
        number(alloc, values, sorted)
    }

    /// The dictionary of no value. It takes no memory yet.
    pub fn empty(alloc: Global) -> Self
        ensures { result ≡ [] }
    {
        Dict {
            values: Vec::new(alloc),
        }
    }

    /// Adds a value that comes after the last one; one that doesn't is left out, and the answer is false.
    /// Fails only where memory is refused.
    #[tactic(auto, using(crate::proofs::Distinct::ascending_push))]
    pub fn push(&mut self, value: K) -> Result<bool, AllocError>
        requires { length self.old + 1 < 2 ^ 32 }
        ensures added { IfOk result (λ added. added ≡ is_past_last K.below self.old value) }
        ensures values { IfOk result (λ added. self.new ≡ (if added then self.old ++ value ∷ [] else self.old)) }
        ensures err { OnErr result (self.new ≡ self.old) }
    {
        if !is_past(&self.values, &value) {
            return Ok(false);
        }
        self.values.push(value)?;
        Ok(true)
    }

    /// An equal dictionary of its own. Fails only where memory is refused.
    pub fn copy(&self, alloc: Global) -> Result<Self, AllocError>
        ensures { IfOk result (λ copy. copy ≡ self.now) }
    {
        let values = copies_of(alloc, &self.values)?;
        Ok(Dict { values })
    }

    /// How many values there are. Ids are below it.
    pub fn len(&self) -> u32
        ensures count { result ≡ length self.now }
        ensures ascending { IsAscending K.below self.now }
    {
        self.values.len() as u32
    }

    /// The value with an id.
    pub fn value(&self, id: u32) -> &K
        requires { id < length self.now }
        ensures { slice_get self.now id ≡ Some result.now }
    {
        &self.values[id as usize]
    }

    /// The id of a key; None exactly where the key is no value.
    pub fn id_of(&self, key: &K) -> Option<u32>
        ensures { (id : ℕ) → (result ≡ Some id) ↔ (slice_get self.now id ≡ Some key.now) }
    {
        let id = count_below(&self.values, key);
        if id < self.values.len() && !key.below(&self.values[id]) {
            Some(id as u32)
        } else {
            None
        }
    }

    /// The ids, from the first up to and without the second, whose values lie within two edges.
    /// Edges that cross give an empty range.
    pub fn range_ids(&self, low: &Edge<K>, high: &Edge<K>) -> (u32, u32)
        ensures ordered { result.0 ≤ result.1 }
        ensures in_range { result.1 ≤ length self.now }
        ensures exact { (id : ℕ) (value : K) → slice_get self.now id ≡ Some value →
            ((result.0 ≤ id) × (id < result.1)) ↔ IsWithin K.below low.now high.now value }

        // An empty range stands where the low edge does.
        ensures start { (id : ℕ) (value : K) → slice_get self.now id ≡ Some value →
            (result.0 ≤ id) ↔ IsTrue (starts_by K.below low.now value) }
    {
        let start = count_before(&self.values, low);
        let end = count_until(&self.values, high);
        (start as u32, start.max(end) as u32)
    }
}

// How many ascending values come before the key.
fn count_below<K: Key>(values: &[K], key: &K) -> usize
    requires { IsAscending K.below values.now }
    ensures within { result ≤ length values.now }
    ensures split { IsPartitionPoint (λ x. K.below x key.now ≡ true) (λ x. K.below x key.now ≡ false) values.now result }
{
    values.partition_point(|value| value.below(key))
}

// How many ascending values do not come after the key.
fn count_up_to<K: Key>(values: &[K], key: &K) -> usize
    requires { IsAscending K.below values.now }
    ensures within { result ≤ length values.now }
    ensures split { IsPartitionPoint (λ x. K.below key.now x ≡ false) (λ x. K.below key.now x ≡ true) values.now result }
{
    values.partition_point(|value| !key.below(value))
}

// How many ascending values lie before the low edge.
fn count_before<K: Key>(values: &[K], low: &Edge<K>) -> usize
    requires { IsAscending K.below values.now }
    ensures within { result ≤ length values.now }
    ensures split { IsPartitionPoint (λ x. starts_by K.below low.now x ≡ false) (λ x. starts_by K.below low.now x ≡ true) values.now result }
{
    match low {
        Edge::Open => 0,
        Edge::At(key) => count_below(values, key),
        Edge::Past(key) => count_up_to(values, key),
    }
}

// How many ascending values lie before the end of the high edge.
fn count_until<K: Key>(values: &[K], high: &Edge<K>) -> usize
    requires { IsAscending K.below values.now }
    ensures within { result ≤ length values.now }
    ensures split { IsPartitionPoint (λ x. ends_after K.below high.now x ≡ true) (λ x. ends_after K.below high.now x ≡ false) values.now result }
{
    match high {
        Edge::Open => values.len(),
        Edge::At(key) => count_up_to(values, key),
        Edge::Past(key) => count_below(values, key),
    }
}

// Each key copied.
fn copies_of<K: Key>(alloc: Global, keys: &[K]) -> Result<Vec<K>, AllocError>
    ensures { IfOk result (λ v. v.items ≡ keys.now) }
{
    let mut copies = Vec::with_capacity(alloc, keys.len())?;
    for key in keys {
        copies.push(key.copy(alloc)?)?;
    }
    Ok(copies)
}

// The distinct keys of a sorted list, and for each place of the keys the id of the key there.
fn number<K: Key>(
    alloc: Global,
    keys: &[K],
    sorted: Vec<Placed<K>>,
) -> Result<Identified<K>, AllocError>
    requires few { length sorted.items < 2 ^ 32 }
    requires sorted { IsSortedBy K.below (map (λ placed. placed.key) sorted.items) }
    requires places { All (λ placed. slice_get keys.now placed.place ≡ Some placed.key) sorted.items }
    ensures distinct { IfOk result (λ identified. AreDistinctValues K.below (map (λ placed. placed.key) sorted.items) identified.dictionary) }
    ensures size { IfOk result (λ identified. length identified.ids ≡ length keys.now) }
    ensures ids { IfOk result (λ identified. All (λ placed. slice_get identified.dictionary (slice_index identified.ids placed.place) ≡ Some placed.key) sorted.items) }
{
    let mut values = Vec::with_capacity(alloc, sorted.len())?;
    let mut ids = vec![in alloc; 0u32; keys.len()]?;
    for placed in sorted {
        ids[placed.place as usize] = id_or_new(&mut values, placed.key)?;
    }
    Ok(Identified {
        dictionary: Dict { values },
        ids: Items::of(ids),
    })
}

// The id of a key, which goes last where it comes after the last of ascending values.
fn id_or_new<K: Key>(values: &mut Vec<K>, key: K) -> Result<u32, AllocError>
    requires { length values.old.items + 1 < 2 ^ 32 }
    ensures values { OnOk result (values.new.items ≡ (if is_past_last K.below values.old.items key then values.old.items ++ key ∷ [] else values.old.items)) }
    ensures id { IfOk result (λ id. id + 1 ≡ length values.new.items) }
{
    if is_past(values, &key) {
        values.push(key)?;
    }
    Ok(values.len() as u32 - 1)
}

// Whether a key comes after the last of some keys, if there is one.
fn is_past<K: Key>(keys: &[K], key: &K) -> bool
    ensures { result ≡ is_past_last K.below keys.now key.now }
{
    match keys.last() {
        None => true,
        Some(last) => last.below(key),
    }
}
