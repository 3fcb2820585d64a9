ghost use Rattle.std.specs.Prelude.{◌≡◌, ◌<◌, ◌-◌, [], ◌∷◌, ◌++◌, Some, length, take, slice_get, position, IfOk, OnOk, OnErr};
ghost use Rattle.rt_mutable.specs.Arrivals.{arrivals_of, id_among, ids_of, unless_used};

use crate::ColumnKey;
use crate::room::reserve_row;
use indexmap::IndexSet;
use rt_base::limits::MOST_ROWS;
use std::alloc::{AllocError, Global};
use std::marker::Model;

/// The values of a column, row by row; contracts see them as a list.
///
/// The distinct values are kept once each, in the order of their first arrival. The id of a value is
/// its place there, and each row has an id.
#[derive(Drop)]
pub struct Arrivals<K: ColumnKey> {
    keys: IndexSet<K>,
    ids: Vec<u32>,
}

impl<K: ColumnKey> Model for Arrivals<K> {
    ghost use Rattle.std.specs.Prelude.{List};
    ghost use Rattle.rt_mutable.specs.Arrivals.{values_by, AreArrivals};

    ghost Value = { List K };

    ghost view = { λ a. values_by a.keys.keys a.ids.items };

    ghost invariant = { λ a. AreArrivals K.eq a.keys.keys a.ids.items };
}

impl<K: ColumnKey> Arrivals<K> {
    /// No row. It takes no memory yet.
    pub(crate) fn new(alloc: Global) -> Self
        ensures { result ≡ [] }
    {
        Arrivals {
            keys: IndexSet::new(alloc),
            ids: Vec::new(alloc),
        }
    }

    /// The number of rows.
    pub fn rows(&self) -> usize
        ensures { result ≡ length self.now }
    {
        self.ids.len()
    }

    /// The distinct values, in the order of their first arrival.
    pub fn keys(&self) -> &[K]
        ensures { result.now ≡ arrivals_of K.eq self.now }
    {
        self.keys.as_slice()
    }

    /// The distinct value with an id.
    pub fn key(&self, id: u32) -> &K
        requires { id < length (arrivals_of K.eq self.now) }
        ensures { slice_get (arrivals_of K.eq self.now) id ≡ Some result.now }
    {
        &self.keys()[id as usize]
    }

    /// The id of a value, where a row has it.
    pub fn id_of(&self, key: &K) -> Option<u32>
        ensures { result ≡ position (K.eq key.now) (arrivals_of K.eq self.now) }
    {
        match self.keys.get_index_of(key) {
            Some(id) => Some(id as u32),
            None => None,
        }
    }

    /// The id of each row's value: its place among the distinct ones.
    pub fn ids(&self) -> &[u32]
        ensures { result.now ≡ ids_of K.eq self.now }
    {
        self.ids.as_slice()
    }

    /// Adds a row with a value, and answers the value's id. Where memory is refused, all is as before.
    pub(crate) fn push(&mut self, alloc: Global, key: &K) -> Result<u32, AllocError>
        requires { length self.old < MOST_ROWS }
        ensures values { OnOk result (self.new ≡ self.old ++ key.now ∷ []) }
        ensures id { IfOk result (λ id. id ≡ id_among K.eq (arrivals_of K.eq self.new) key.now) }
        ensures err { OnErr result (self.new ≡ self.old) }
    {
        reserve_row(&mut self.ids)?;
        let id = K::id_or_new(&mut self.keys, alloc, key)?;
        self.ids.push_reserved(id as u32);
        Ok(id as u32)
    }

    /// Takes the last row back, and its value too where no other row has it.
    pub(crate) fn take_back(&mut self)
        requires { 0 < length self.old }
        ensures { self.new ≡ take (length self.old - 1) self.old }
    {
        let Some(id) = self.ids.pop() else {
            return;
        };
        forget_unless_used(&mut self.keys, id, &self.ids);
    }
}

/// Drops the last key, unless a row has its id.
fn forget_unless_used<K: ColumnKey>(keys: &mut IndexSet<K>, id: u32, ids: &[u32])
    ensures { keys.new.keys ≡ unless_used keys.old.keys id ids.now }
{
    if !ids.contains(&id) {
        keys.pop();
    }
}
