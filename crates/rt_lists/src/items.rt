ghost use Rattle.std.specs.Prelude.{◌≡◌, ◌↔◌, ◌++◌, ◌∷◌, [], ◌<◌, List, length, take, slice_get, IfSome, IfNone, OnOk, OnErr, IsTrue};
ghost use Rattle.std.specs.Borrow.{sem};
ghost use Rattle.rt_lists.specs.Lending.{LendsItem, LendsAll};

use crate::Copied;
use std::alloc::{AllocError, Global};
use std::hash::{Hash, Hasher};
use std::marker::Model;

/// A list of values of any type; contracts see it as the list of its items.
#[derive(Drop)]
pub struct Items<T> {
    items: Vec<T>,
}

impl<T> Model for Items<T> {
    ghost use Rattle.std.specs.Prelude.{List};

    ghost Value = { List T };

    ghost view = { λ a. a.items.items };
}

impl<T> Items<T> {
    /// The list of no item. It takes no memory yet.
    pub fn new(alloc: Global) -> Self
        ensures { result ≡ [] }
    {
        Items {
            items: Vec::new(alloc),
        }
    }

    /// The items of a vector.
    pub fn of(items: Vec<T>) -> Self
        ensures { result ≡ items.items }
    {
        Items { items }
    }

    /// The vector of the items.
    pub fn into_vec(self) -> Vec<T>
        ensures { result.items ≡ self }
    {
        self.items
    }

    /// All items.
    pub fn as_slice(&self) -> &[T]
        ensures { result.now ≡ self.now }
    {
        self.items.as_slice()
    }

    /// The number of items.
    pub fn len(&self) -> usize
        ensures { result ≡ length self.now }
    {
        self.items.len()
    }

    /// Whether there is no item.
    pub fn is_empty(&self) -> bool
        ensures { IsTrue result ↔ (self.now ≡ []) }
    {
        self.items.is_empty()
    }

    /// The item at a place, where there is one.
    pub fn get(&self, i: usize) -> Option<&T>
        ensures some { IfSome result (λ item. slice_get self.now i ≡ Some item.now) }
        ensures none { IfNone result (slice_get self.now i ≡ None) }
    {
        self.items.get(i)
    }

    /// An item, to be changed.
    pub fn at_mut(&mut self, i: usize) -> &mut T
        requires { i < length self.old }
        ensures* writes_back { sem 𝓛 (LendsItem T.row self.entry i result) }
        ensures item { slice_get self.old i ≡ Some result.now }
    {
        &mut self.items[i]
    }

    /// All items, to be changed in place.
    pub fn as_mut_slice(&mut self) -> &mut [T]
        ensures* writes_back { sem 𝓛 (LendsAll T.row self.entry result) }
        ensures value { result.now ≡ self.old }
    {
        self.items.as_mut_slice()
    }

    /// Takes the last item out.
    pub fn pop(&mut self) -> Option<T>
        ensures some { IfSome result (λ x. self.old ≡ self.new ++ x ∷ []) }
        ensures none { IfNone result ((self.new ≡ self.old) × (self.old ≡ [])) }
    {
        self.items.pop()
    }
}

impl<T: Drop> Items<T> {
    /// Adds an item at the end. Where memory runs out, the list is as before.
    pub fn push(&mut self, item: T) -> Result<(), AllocError>
        ensures ok { OnOk result (self.new ≡ self.old ++ item ∷ []) }
        ensures err { OnErr result (self.new ≡ self.old) }
    {
        self.items.push(item)?;
        Ok(())
    }

    /// Keeps the first `count` items, or all where there are fewer.
    pub fn truncate(&mut self, count: usize)
        ensures { self.new ≡ take count self.old }
    {
        self.items.truncate(count)
    }

    /// Drops all items.
    pub fn clear(&mut self)
        ensures { self.new ≡ [] }
    {
        self.items.clear()
    }
}

impl<T: PartialEq> PartialEq for Items<T> {
    ghost use Rattle.std.proofs.Common.{rules};
    ghost use Rattle.std.specs.Cmp.Rules.{comparing};
    ghost use lib.Pointwise.{pointwise};

    ghost eq = { pointwise T.eq };

    ghost laws = { Prim.search (comparing, rules) };

    fn eq(&self, other: &Items<T>) -> bool {
        self.items == other.items
    }
}

impl<T: Eq> Eq for Items<T> {
    ghost use Rattle.std.proofs.Common.{rules};
    ghost use Rattle.std.specs.Cmp.Rules.{comparing};

    ghost laws = { Prim.search (comparing, rules) };
}

impl<T: Hash> Hash for Items<T> {
    ghost use Rattle.std.specs.Hash as fed;
    ghost use Rattle.std.specs.Hash.{items_Alike};

    ghost hash_input = { fed.slice T.hash_input };

    ghost respects_eq = { (items_Alike (record { fed = T.respects_eq })).fed };

    fn hash<H: Hasher>(&self, state: &mut H) {
        self.items.hash(state);
    }
}

impl<T: Copied> Copied for Items<T> {
    fn copied(&self, alloc: Global) -> Result<Self, AllocError> {
        let mut copies = Vec::with_capacity(alloc, self.len())?;
        for item in self.as_slice() {
            copies.push(item.copied(alloc)?)?;
        }
        Ok(Items::of(copies))
    }
}
