ghost use Rattle.std.specs.Prelude.{◌≡◌, ◌≤◌, [], List, length, map, take, slice_get, is_some, IfOk, OnOk};
ghost use Rattle.std.specs.List.{IsDistinct};
ghost use Rattle.std.specs.Map.{lookup, keys_of};
ghost use Rattle.rt_schema.specs.declared.value.Value.{Value as AnyValue};
ghost use Rattle.rt_agg.specs.Accumulators.{known_of};
ghost use Rattle.rt_agg.specs.Grouped.{same_key};
ghost use Rattle.rt_agg.specs.GroupTable.{IsOfSame};
ghost use Rattle.rt_agg.specs.Merging.{AreAt, merged_at, started_at};

use crate::GroupKey;
use crate::group_table::GroupTable;
use rt_lists::Copied;
use std::alloc::{AllocError, Global};

/// Starts the group of a key, where it isn't there, and gives the group. What was there stays in its place.
fn start_one(alloc: Global, table: &mut GroupTable, key: &GroupKey) -> Result<usize, AllocError>
    ensures known { OnOk result ((q : List AnyValue) → lookup (same_key q) table.new.entries ≡ started_at (map (known_of table.old.columns q []) table.old.items) (lookup (same_key q) table.old.entries) (same_key q key.now)) }
    ensures at { IfOk result (λ place. slice_get (keys_of table.new.entries) place ≡ Some key.now) }
    ensures kept { take (length table.old.entries) table.new.entries ≡ table.old.entries }
    ensures grown { length table.old.entries ≤ length table.new.entries }
    ensures same { IsOfSame table.old table.new }
{
    match table.find(key) {
        Some(place) => Ok(place),
        None => {
            let key = key.copied(alloc)?;
            let place = table.start(key)?;
            Ok(place)
        }
    }
}

/// Starts each group that others have, and gives the place of each. What was there stays in its place, also where memory runs out.
pub(crate) fn start_missing(
    alloc: Global,
    table: &mut GroupTable,
    others: &GroupTable,
) -> Result<Vec<usize>, AllocError>
    ensures known { OnOk result ((q : List AnyValue) → lookup (same_key q) table.new.entries ≡ started_at (map (known_of table.old.columns q []) table.old.items) (lookup (same_key q) table.old.entries) (is_some (lookup (same_key q) others.now.entries))) }
    ensures places { IfOk result (λ places. AreAt (keys_of table.new.entries) places.items (keys_of others.now.entries)) }
    ensures kept { take (length table.old.entries) table.new.entries ≡ table.old.entries }
    ensures same { IsOfSame table.old table.new }
{
    let count = others.len();
    let mut places = Vec::with_capacity(alloc, count)?;
    for i in 0..count {
        let place = start_one(alloc, table, others.key(i))?;
        places.push(place)?;
    }
    Ok(places)
}

/// Takes what is known of each group of a table for the same items into the group with its key, which is at its place.
pub(crate) fn merge_each(table: &mut GroupTable, others: &GroupTable, places: &[usize])
    requires { AreAt (keys_of table.old.entries) places.now (keys_of others.now.entries) }
    ensures known { table.old.items ≡ others.now.items → (q : List AnyValue) → lookup (same_key q) table.new.entries ≡ merged_at (lookup (same_key q) table.old.entries) (lookup (same_key q) others.now.entries) }
    ensures keys { keys_of table.new.entries ≡ keys_of table.old.entries }
    ensures same { IsOfSame table.old table.new }
    ensures apart { IsDistinct same_key (keys_of table.new.entries) }
{
    for i in 0..others.len() {
        table.merge(places[i], others, i);
    }
    let _ = table.len();
}
