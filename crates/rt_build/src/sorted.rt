ghost use Rattle.std.specs.Prelude.{◌≡◌, ◌≤◌, ◌<◌, All, length, take, IfOk};
ghost use Rattle.rt_build.specs.Renumbered.{next_id, renumbered, AreSorted};

use rt_dict::{Dict, Key};
use rt_lists::Items;
use rt_mutable::{Arrivals, ColumnKey};
use std::alloc::{AllocError, Global};

/// The distinct values of some rows, ascending, and the place of each row's value among them.
#[derive(Drop)]
pub(crate) struct Sorted<K: Key> {
    pub(crate) dictionary: Dict<K>,
    pub(crate) ids: Items<u32>,
}

/// The values of the first rows of a column, sorted once; the rows stay in their order.
pub(crate) fn sort_values<K: ColumnKey>(
    alloc: Global,
    arrivals: &Arrivals<K>,
    rows: u32,
) -> Result<Sorted<K>, AllocError>
    requires { rows ≤ length arrivals.now }
    ensures { IfOk result (λ sorted. AreSorted K.below (take rows arrivals.now) sorted.dictionary sorted.ids) }
{
    let ids = &arrivals.ids()[..rows as usize];
    let keys = &arrivals.keys()[..count_used(ids)];
    let identified = Dict::identify(alloc, keys)?;
    let ids = renumber(alloc, identified.ids.as_slice(), ids)?;
    Ok(Sorted {
        dictionary: identified.dictionary,
        ids,
    })
}

/// How many distinct values the ids stand for.
fn count_used(ids: &[u32]) -> usize
    ensures { result ≡ next_id ids.now }
{
    let mut next = 0;
    for id in ids {
        next = next.max(*id as usize + 1);
    }
    next
}

/// Each id as the table has it.
fn renumber(alloc: Global, table: &[u32], ids: &[u32]) -> Result<Items<u32>, AllocError>
    requires { All (λ id. id < length table.now) ids.now }
    ensures { IfOk result (λ new. new ≡ renumbered table.now ids.now) }
{
    let mut new = Vec::with_capacity(alloc, ids.len())?;
    for id in ids {
        new.push(table[*id as usize])?;
    }
    Ok(Items::of(new))
}
