//! The groups of the rows of a set. Rows go to their groups a page at a time: the group of each is found first, or started, and
//! then each item of the query takes the whole page.
ghost use Rattle.std.specs.Prelude.{◌≡◌, ◌<◌, ◌≤◌, ◌^◌, ◌∷◌, [], ℕ, All, List, Some, length, map, slice_get, IfOk, IfNone, IfSome, OnOk};
ghost use Rattle.rt_schema.specs.declared.row.Row.{Row as AnyRow};
ghost use Rattle.rt_model.specs.declared.query.Query.{Query as AnyQuery};
ghost use Rattle.rt_model.specs.Aggregate.{key_of, taken};
ghost use Rattle.rt_model.specs.Match.{passes, value_in};
ghost use Rattle.rt_agg.specs.Grouped.{AwaitsOne, Fits, Holds, keys_in_order};
ghost use Rattle.rt_agg.specs.ValueRef.{value_lent};
ghost use Rattle.rt_seek.specs.Table.{row_at, rows_by};
ghost use Rattle.rt_scan.specs.Grouping.{key_by, value_by, AreLeast, HoldsOrAwaits, IsLeast, KeysStay, Leads};

use crate::column_table::ColumnTable;
use crate::group_ids::GroupIds;
use rt_agg::{GroupKey, Groups, PlacedRow, ValueRef};
use rt_lists::Items;
use rt_model::{ColumnAt, Query};
use rt_postings::DocSet;
use rt_schema::Value;
use rt_seek::ScanColumn;
use std::alloc::{AllocError, Global};

// So many rows are added to their groups at once.
const PAGE_ROWS: usize = 1_024;

/// The groups of the rows of a set. Fails only where memory is refused.
pub(crate) fn groups_of<C: ScanColumn>(
    alloc: Global,
    query: &Query,
    columns: &[C],
    set: &DocSet,
) -> Result<Groups, AllocError>
    requires full { All (λ column. length (C.values column) ≡ length set.now) columns.now }
    requires few { length set.now < 2 ^ 32 }
    requires taken { set.now ≡ map (passes query.now.filter) (rows_by C.values columns.now (length set.now)) }
    requires fits { (row : ℕ) → row < length set.now → Fits query.now (row_at C.values columns.now row) }
    ensures { IfOk result (Holds query.now (taken query.now (rows_by C.values columns.now (length set.now)))) }
{
    let mut groups = Groups::make(alloc, query)?;
    let mut met = GroupIds::new(alloc);
    let mut ids = Items::new(alloc);
    let mut page = Vec::new(alloc);
    let mut from = 0;
    while let Some(row) = set.next_from(from) {
        let by = query.groups.as_slice();
        let group = place_row(alloc, by, columns, row, &mut ids, &mut met, &mut groups)?;
        page.push(PlacedRow { row, group })?;
        turn_page(columns, &mut page, &mut groups);
        from = row + 1;
    }
    groups.add_page(&page, &ColumnTable { columns });
    Ok(groups)
}

// Adds the rows of a full page to their groups, and begins the next one.
fn turn_page<C: ScanColumn>(columns: &[C], page: &mut Vec<PlacedRow>, groups: &mut Groups)
    ensures turns { (query : AnyQuery) (rows : List AnyRow) → HoldsOrAwaits query (row_at C.values columns.now) rows page.old.items groups.old → HoldsOrAwaits query (row_at C.values columns.now) rows page.new.items groups.new }
    ensures keys { keys_in_order groups.new ≡ keys_in_order groups.old }
{
    if page.len() >= PAGE_ROWS {
        groups.add_page(page, &ColumnTable { columns });
        page.clear();
    }
}

// The index of a row's group, which is started where there is none.
fn place_row<C: ScanColumn>(
    alloc: Global,
    by: &[ColumnAt],
    columns: &[C],
    row: u32,
    ids: &mut Items<u32>,
    met: &mut GroupIds,
    groups: &mut Groups,
) -> Result<usize, AllocError>
    requires row { All (λ column. row < length (C.values column)) columns.now }
    requires met { Leads C.value_of columns.now by.now groups.old met.old }
    ensures awaits { OnOk result (AwaitsOne (key_of by.now (row_at C.values columns.now row)) groups.old groups.new) }
    ensures index { IfOk result (λ i. slice_get (keys_in_order groups.new) i ≡ Some (key_of by.now (row_at C.values columns.now row))) }
    ensures keys { OnOk result (KeysStay groups.old groups.new) }
    ensures met { OnOk result (Leads C.value_of columns.now by.now groups.new met.new) }
{
    if by.is_empty() {
        return Ok(0);
    }
    match only_column(by) {
        Some(column) => place_by_id(alloc, column, columns, row, met, groups),
        None => place_by_ids(alloc, by, columns, row, ids, met, groups),
    }
}

// The index of a row's group, where one column groups the rows.
fn place_by_id<C: ScanColumn>(
    alloc: Global,
    by: &ColumnAt,
    columns: &[C],
    row: u32,
    met: &mut GroupIds,
    groups: &mut Groups,
) -> Result<usize, AllocError>
    requires row { All (λ column. row < length (C.values column)) columns.now }
    requires met { Leads C.value_of columns.now (by.now ∷ []) groups.old met.old }
    ensures awaits { OnOk result (AwaitsOne (key_of (by.now ∷ []) (row_at C.values columns.now row)) groups.old groups.new) }
    ensures index { IfOk result (λ i. slice_get (keys_in_order groups.new) i ≡ Some (key_of (by.now ∷ []) (row_at C.values columns.now row))) }
    ensures keys { OnOk result (KeysStay groups.old groups.new) }
    ensures met { OnOk result (Leads C.value_of columns.now (by.now ∷ []) groups.new met.new) }
{
    let id = id_in(columns, row, by);
    match met.find_one(id) {
        Some(index) => Ok(index),
        None => {
            let key = GroupKey::of_one(alloc, value_in(columns, row, by))?;
            let index = groups.start(key)?;
            met.note_one(id, index)?;
            Ok(index)
        }
    }
}

fn only_column(by: &[ColumnAt]) -> Option<&ColumnAt>
    ensures some { IfSome result (λ column. by.now ≡ column.now ∷ []) }
    ensures none { IfNone result (length by.now ≡ 1 → ⊥) }
{
    match by {
        [column] => Some(column),
        _ => None,
    }
}

// The index of a row's group, where several columns group the rows.
fn place_by_ids<C: ScanColumn>(
    alloc: Global,
    by: &[ColumnAt],
    columns: &[C],
    row: u32,
    ids: &mut Items<u32>,
    met: &mut GroupIds,
    groups: &mut Groups,
) -> Result<usize, AllocError>
    requires several { 2 ≤ length by.now }
    requires row { All (λ column. row < length (C.values column)) columns.now }
    requires met { Leads C.value_of columns.now by.now groups.old met.old }
    ensures awaits { OnOk result (AwaitsOne (key_of by.now (row_at C.values columns.now row)) groups.old groups.new) }
    ensures index { IfOk result (λ i. slice_get (keys_in_order groups.new) i ≡ Some (key_of by.now (row_at C.values columns.now row))) }
    ensures keys { OnOk result (KeysStay groups.old groups.new) }
    ensures met { OnOk result (Leads C.value_of columns.now by.now groups.new met.new) }
{
    read_ids(by, columns, row, ids)?;
    match met.find(ids) {
        Some(index) => Ok(index),
        None => {
            let values = read_values(alloc, by, columns, row)?;
            let index = groups.start(GroupKey::of(values))?;
            met.note(copy_of(alloc, ids)?, index)?;
            Ok(index)
        }
    }
}

fn copy_of(alloc: Global, ids: &Items<u32>) -> Result<Items<u32>, AllocError>
    ensures { IfOk result (λ copy. copy ≡ ids.now) }
{
    let mut copy = Vec::new(alloc);
    copy.extend_from_slice(ids.as_slice())?;
    Ok(Items::of(copy))
}

// The ids of a row in the columns of GROUP BY.
fn read_ids<C: ScanColumn>(
    by: &[ColumnAt],
    columns: &[C],
    row: u32,
    ids: &mut Items<u32>,
) -> Result<(), AllocError>
    requires { All (λ column. row < length (C.values column)) columns.now }
    ensures key { OnOk result (key_by C.value_of columns.now by.now ids.new ≡ key_of by.now (row_at C.values columns.now row)) }
    ensures least { OnOk result (AreLeast C.value_of columns.now by.now ids.new) }
{
    ids.clear();
    for column in by {
        ids.push(id_in(columns, row, column))?;
    }
    Ok(())
}

fn id_in<C: ScanColumn>(columns: &[C], row: u32, column: &ColumnAt) -> u32
    requires { All (λ column. row < length (C.values column)) columns.now }
    ensures value { value_by C.value_of columns.now column.now result ≡ value_in (row_at C.values columns.now row) column.now }
    ensures least { IsLeast C.value_of columns.now column.now result }
{
    let place = column.place as usize;
    if place < columns.len() {
        columns[place].id(row)
    } else {
        0
    }
}

// The values of a row in the columns of GROUP BY.
fn read_values<C: ScanColumn>(
    alloc: Global,
    by: &[ColumnAt],
    columns: &[C],
    row: u32,
) -> Result<Items<Value>, AllocError>
    requires { All (λ column. row < length (C.values column)) columns.now }
    ensures { IfOk result (λ values. values ≡ key_of by.now (row_at C.values columns.now row)) }
{
    let mut values = Vec::with_capacity(alloc, by.len())?;
    for column in by {
        values.push(value_in(columns, row, column).copied(alloc)?)?;
    }
    Ok(Items::of(values))
}

fn value_in<'a, C: ScanColumn>(columns: &'a [C], row: u32, column: &ColumnAt) -> ValueRef<'a>
    requires { All (λ column. row < length (C.values column)) columns.now }
    ensures { value_lent result ≡ value_in (row_at C.values columns.now row) column.now }
{
    let place = column.place as usize;
    if place < columns.len() {
        columns[place].value(row)
    } else {
        ValueRef::Bool(false)
    }
}
