//! The rows of each id, in lists that grow.
ghost use Rattle.std.specs.Prelude.{◌≡◌, ◌≤◌, ◌-◌, [], ◌∷◌, ◌++◌, length, take, OnOk, OnErr, IfSome};
ghost use Rattle.std.specs.Option.{option_map};
ghost use Rattle.rt_mutable.specs.Index.{rows_found};
ghost use Rattle.rt_mutable.specs.RowLists.{with_row, without_row};

use rt_lists::Items;
use std::alloc::{AllocError, Global};
use std::mem;

/// For each id the numbers of the rows that have it, ascending.
pub(crate) type RowLists = Items<Items<u32>>;

/// The rows at an id; none where there is no id.
pub(crate) fn rows_at(lists: &RowLists, id: Option<u32>) -> &[u32]
    ensures { result.now ≡ rows_found lists.now id }
{
    match id {
        Some(id) => match lists.get(id as usize) {
            Some(rows) => rows.as_slice(),
            None => &[],
        },
        None => &[],
    }
}

/// Adds a row at its id, where rows are kept by id. Where memory is refused, all is as before.
pub(crate) fn note_row(
    alloc: Global,
    lists: &mut Option<RowLists>,
    id: u32,
    row: u32,
) -> Result<(), AllocError>
    ensures ok { OnOk result (lists.new ≡ option_map (λ old. with_row old id row) lists.old) }
    ensures err { OnErr result (lists.new ≡ lists.old) }
{
    match lists {
        None => Ok(()),
        Some(lists) => add_row(alloc, lists, id, row),
    }
}

/// Takes the last row back, whose id this is, when so many ids are left.
pub(crate) fn forget_row(lists: &mut Option<RowLists>, id: u32, count: usize)
    requires { IfSome lists.old (λ old. count ≤ length old) }
    ensures { lists.new ≡ option_map (λ old. without_row old id count) lists.old }
{
    match lists {
        None => {}
        Some(lists) => remove_row(lists, id, count),
    }
}

#[tactic(auto, using(rt_lists::proofs::Lists::set_same))]
fn add_row(alloc: Global, lists: &mut RowLists, id: u32, row: u32) -> Result<(), AllocError>
    ensures ok { OnOk result (lists.new ≡ with_row lists.old id row) }
    ensures err { OnErr result (lists.new ≡ lists.old) }
{
    if (id as usize) < lists.len() {
        return push_row(alloc, lists.at_mut(id as usize), row);
    }
    let mut rows = Items::new(alloc);
    rows.push(row)?;
    lists.push(rows)
}

/// Adds a row to those of an id. A short list grows fourfold, so that it is moved half as often.
fn push_row(alloc: Global, rows: &mut Items<u32>, row: u32) -> Result<(), AllocError>
    ensures ok { OnOk result (rows.new ≡ rows.old ++ row ∷ []) }
    ensures err { OnErr result (rows.new ≡ rows.old) }
{
    if matches!(rows.len(), 4 | 16 | 64) {
        widen(alloc, rows)?;
    }
    rows.push(row)
}

/// Makes room in a list of rows for three times as many more.
fn widen(alloc: Global, rows: &mut Items<u32>) -> Result<(), AllocError>
    ensures { rows.new ≡ rows.old }
{
    let mut wider = mem::replace(rows, Items::new(alloc)).into_vec();
    let room = wider.reserve(wider.len() * 3);
    *rows = Items::of(wider);
    room
}

fn remove_row(lists: &mut RowLists, id: u32, count: usize)
    requires { count ≤ length lists.old }
    ensures { lists.new ≡ without_row lists.old id count }
{
    if (id as usize) < count {
        drop_last(lists.at_mut(id as usize));
    } else {
        drop_last(lists);
    }
}

fn drop_last<T: Drop>(items: &mut Items<T>)
    ensures { items.new ≡ take (length items.old - 1) items.old }
{
    items.truncate(items.len().saturating_sub(1));
}
