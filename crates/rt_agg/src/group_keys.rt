ghost use Rattle.std.specs.Prelude.{◌≡◌, ◌<◌, ◌∷◌, ◌++◌, [], false, length, take, slice_get, Some, IfNone, IfOk, IfSome, OnErr, OnOk};
ghost use Rattle.std.specs.List.{IsDistinct, list_any};
ghost use Rattle.rt_agg.specs.GroupKeys.{keys_in};
ghost use Rattle.rt_agg.specs.Grouped.{same_key};
ghost use Rattle.rt_agg.specs.Picking.{kept};

use crate::GroupKey;
use crate::keeping::keep_copies;
use indexmap::IndexSet;
use rt_lists::{Copied, Items};
use std::alloc::{AllocError, Global};
use std::marker::Model;

/// The keys of groups, no two of which are the same, by the groups' numbers.
#[derive(Drop)]
pub(crate) struct GroupKeys {
    kept: Kept,
}

/// How keys are kept.
#[derive(Drop)]
enum Kept {
    /// One after the other, as long as each that comes is known to be new.
    Listed(Items<GroupKey>),
    /// So that they are found by a hash.
    Indexed(IndexSet<GroupKey>),
}

impl Model for GroupKeys {
    ghost use Rattle.std.specs.Prelude.{List};
    ghost use Rattle.std.specs.List.{IsDistinct};
    ghost use Rattle.rt_schema.specs.declared.value.Value.{Value as AnyValue};
    ghost use Rattle.rt_agg.specs.Grouped.{same_key};
    ghost use Rattle.rt_agg.specs.GroupKeys.{keys_in};

    ghost Value = { List (List AnyValue) };

    ghost view = { λ g. keys_in g.kept };

    ghost invariant = { λ g. IsDistinct same_key (keys_in g.kept) };
}

impl GroupKeys {
    /// No key. It takes no memory yet.
    pub(crate) fn new(alloc: Global) -> GroupKeys
        ensures { result ≡ [] }
    {
        GroupKeys {
            kept: Kept::Listed(Items::new(alloc)),
        }
    }

    /// The number of keys.
    pub(crate) fn len(&self) -> usize
        ensures len { result ≡ length self.now }
        ensures apart { IsDistinct same_key self.now }
    {
        self.as_slice().len()
    }

    /// The keys, by the groups' numbers.
    pub(crate) fn as_slice(&self) -> &[GroupKey]
        ensures keys { result.now ≡ self.now }
        ensures apart { IsDistinct same_key self.now }
    {
        self.kept.as_slice()
    }

    /// A key, by its group's number.
    pub(crate) fn get(&self, group: usize) -> &GroupKey
        requires { group < length self.now }
        ensures { slice_get self.now group ≡ Some result.now }
    {
        &self.as_slice()[group]
    }

    /// The group of a key, where it is there.
    pub(crate) fn find(&self, key: &GroupKey) -> Option<usize>
        ensures some { IfSome result (λ group. slice_get self.now group ≡ Some key.now) }
        ensures none { IfNone result (list_any (same_key key.now) self.now ≡ false) }
        ensures apart { IsDistinct same_key self.now }
    {
        match &self.kept {
            Kept::Listed(keys) => find_listed(keys.as_slice(), key),
            Kept::Indexed(keys) => find_indexed(keys, key),
        }
    }

    /// Adds a key that isn't there, behind all others. Where memory runs out, all is as before.
    pub(crate) fn push(&mut self, key: GroupKey) -> Result<(), AllocError>
        requires { list_any (same_key key) self.old ≡ false }
        ensures keys { OnOk result (self.new ≡ self.old ++ key ∷ []) }
        ensures apart { IsDistinct same_key self.new }
        ensures err { OnErr result (self.new ≡ self.old) }
    {
        self.kept.push(key)
    }

    /// The keys of the groups that are marked.
    pub(crate) fn pick(&self, alloc: Global, marks: &[bool]) -> Result<GroupKeys, AllocError>
        ensures keys { IfOk result (λ picked. picked ≡ kept marks.now self.now) }
        ensures apart { IfOk result (IsDistinct same_key) }
    {
        let keys = keep_copies(alloc, marks, self.as_slice())?;
        Ok(GroupKeys {
            kept: Kept::Listed(keys),
        })
    }

    /// Keeps the first keys, so many.
    pub(crate) fn truncate(&mut self, count: usize)
        ensures keys { self.new ≡ take count self.old }
        ensures apart { IsDistinct same_key self.new }
    {
        self.kept.truncate(count);
    }

    /// Makes the keys be found by a hash. Fails only where memory is refused.
    pub(crate) fn index(&mut self, alloc: Global) -> Result<(), AllocError>
        ensures { self.new ≡ self.old }
    {
        if let Kept::Listed(keys) = &self.kept {
            self.kept = Kept::Indexed(indexed(alloc, keys.as_slice())?);
        }
        Ok(())
    }
}

impl Kept {
    fn as_slice(&self) -> &[GroupKey]
        ensures { result.now ≡ keys_in self.now }
    {
        match self {
            Kept::Listed(keys) => keys.as_slice(),
            Kept::Indexed(keys) => keys.as_slice(),
        }
    }

    // Adds a key that isn't there.
    fn push(&mut self, key: GroupKey) -> Result<(), AllocError>
        requires { list_any (same_key key) (keys_in self.old) ≡ false }
        ensures ok { OnOk result (keys_in self.new ≡ keys_in self.old ++ key ∷ []) }
        ensures err { OnErr result (keys_in self.new ≡ keys_in self.old) }
    {
        match self {
            Kept::Listed(keys) => keys.push(key),
            Kept::Indexed(keys) => push_indexed(keys, key),
        }
    }

    fn truncate(&mut self, count: usize)
        ensures { keys_in self.new ≡ take count (keys_in self.old) }
    {
        match self {
            Kept::Listed(keys) => keys.truncate(count),
            Kept::Indexed(keys) => keys.truncate(count),
        }
    }
}

// The place of a key in a list.
fn find_listed(keys: &[GroupKey], key: &GroupKey) -> Option<usize>
    ensures some { IfSome result (λ group. slice_get keys.now group ≡ Some key.now) }
    ensures none { IfNone result (list_any (same_key key.now) keys.now ≡ false) }
{
    for (group, other) in keys.iter().enumerate() {
        if key.compare(other).is_eq() {
            return Some(group);
        }
    }
    None
}

// The place of a key in a set.
fn find_indexed(keys: &IndexSet<GroupKey>, key: &GroupKey) -> Option<usize>
    ensures some { IfSome result (λ group. slice_get keys.now.keys group ≡ Some key.now) }
    ensures none { IfNone result (list_any (same_key key.now) keys.now.keys ≡ false) }
{
    match keys.get_full(key) {
        Some((group, _key)) => Some(group),
        None => None,
    }
}

// Adds a key that a set lacks.
fn push_indexed(keys: &mut IndexSet<GroupKey>, key: GroupKey) -> Result<(), AllocError>
    requires { list_any (same_key key) keys.old.keys ≡ false }
    ensures ok { OnOk result (keys.new.keys ≡ keys.old.keys ++ key ∷ []) }
    ensures err { OnErr result (keys.new.keys ≡ keys.old.keys) }
{
    keys.insert(key)?;
    Ok(())
}

// A set of keys that are apart.
fn indexed(alloc: Global, keys: &[GroupKey]) -> Result<IndexSet<GroupKey>, AllocError>
    requires { IsDistinct same_key keys.now }
    ensures { IfOk result (λ set. set.keys ≡ keys.now) }
{
    let mut set = IndexSet::with_capacity(alloc, keys.len())?;
    for key in keys {
        push_indexed(&mut set, key.copied(alloc)?)?;
    }
    Ok(set)
}
