ghost use Rattle.std.specs.Prelude.{◌≡◌, IsTrue, IfOk, OnOk, OnErr};
ghost use Rattle.rt_mutable.specs.Arrivals.{arrive, id_among};
ghost use Rattle.rt_mutable.specs.Keys.{exact_ints, exact_bools, exact_texts};

use indexmap::IndexSet;
use rt_dict::Key;
use rt_lists::Text;
use std::alloc::{AllocError, Global};
use std::hash::Hash;

/// The number of distinct values that the first one makes room for.
const FIRST_KEYS: usize = 64;

/// A value that a column can hold: a key of dictionaries, which a hash finds again.
pub trait ColumnKey: Key + Eq + Hash {
    /// The id of a key, which goes last where it is new. Where memory is refused, all is as before.
    fn id_or_new(keys: &mut IndexSet<Self>, alloc: Global, key: &Self) -> Result<usize, AllocError>
        ensures keys { OnOk result (keys.new.keys ≡ arrive Self.eq keys.old.keys key.now) }
        ensures id { IfOk result (λ id. id ≡ id_among Self.eq keys.old.keys key.now) }
        ensures err { OnErr result (keys.new.keys ≡ keys.old.keys) };

    /// Two keys that compare as equal are one.
    ghost exact: { (x y : Self) → IsTrue (Self.eq x y) → x ≡ y };
}

impl ColumnKey for i32 {
    ghost exact = { exact_ints };

    fn id_or_new(keys: &mut IndexSet<i32>, _: Global, key: &i32) -> Result<usize, AllocError> {
        inserted(keys, *key)
    }
}

impl ColumnKey for i64 {
    ghost exact = { exact_ints };

    fn id_or_new(keys: &mut IndexSet<i64>, _: Global, key: &i64) -> Result<usize, AllocError> {
        inserted(keys, *key)
    }
}

impl ColumnKey for bool {
    ghost exact = { exact_bools };

    fn id_or_new(keys: &mut IndexSet<bool>, _: Global, key: &bool) -> Result<usize, AllocError> {
        inserted(keys, *key)
    }
}

impl ColumnKey for Text {
    ghost exact = { exact_texts };

    // A text that is known is not copied.
    fn id_or_new(
        keys: &mut IndexSet<Text>,
        alloc: Global,
        key: &Text,
    ) -> Result<usize, AllocError> {
        if let Some(id) = keys.get_index_of(key) {
            return Ok(id);
        }
        inserted(keys, key.copy(alloc)?)
    }
}

/// The id of a key that is put in, last where it is new.
fn inserted<K: Key + Eq + Hash>(keys: &mut IndexSet<K>, key: K) -> Result<usize, AllocError>
    ensures keys { OnOk result (keys.new.keys ≡ arrive K.eq keys.old.keys key) }
    ensures id { IfOk result (λ id. id ≡ id_among K.eq keys.old.keys key) }
    ensures err { OnErr result (keys.new.keys ≡ keys.old.keys) }
{
    if keys.is_empty() {
        keys.reserve(FIRST_KEYS)?;
    }
    let (id, _) = keys.insert_full(key)?;
    Ok(id)
}
