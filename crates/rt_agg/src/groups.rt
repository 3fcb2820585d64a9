ghost use Rattle.std.specs.Prelude.{◌≡◌, ◌↔◌, ◌++◌, ◌∷◌, [], List, length, map, slice_get, None, Some, IfErr, IfOk, IsTrue, OnOk, OnErr};
ghost use Rattle.std.specs.List.{AllByRecursion, Contains, IsDistinct};
ghost use Rattle.std.specs.Map.{lookup, keys_of};
ghost use Rattle.rt_schema.specs.declared.value.Value.{Value as AnyValue};
ghost use Rattle.rt_agg.specs.Accumulators.{known_of, ordering_items};
ghost use Rattle.rt_agg.specs.Grouped.{Adds, AddsPage, AwaitsOne, Finishes, Merges, Holds, first_known, keys_in_order, same_key};
ghost use Rattle.rt_agg.specs.GroupTable.{IsOfSame};
ghost use Rattle.rt_agg.specs.Picking.{AreAllTold, AreOf, AreOneColumn, IsAmong, Picks, Tells, all_items, kept};
ghost use Rattle.rt_agg.specs.declared.pick_refused.PickRefused.TheVariants.{Untold};

use crate::foremost::{first_places, rows_at};
use crate::group_keys::GroupKeys;
use crate::group_table::GroupTable;
use crate::keys::key_of_row;
use crate::merging::{merge_each, start_missing};
use crate::ranked::{all_places, sort};
use crate::{GroupKey, PickRefused, PlacedRow, ReadTable};
use rt_lists::{Copied, Items};
use rt_model::{ColumnAt, Item, OrderKey, Query, ResultRow};
use rt_schema::Row;
use std::alloc::{AllocError, Global};
use std::marker::Model;

// Up to this limit each group is put among the first ones; above it all are sorted.
const MOST_PLACED: u32 = 1_024;

/// The groups of a query, in the order in which their first rows came.
#[derive(Drop)]
pub struct Groups {
    items: Items<Item>,
    order: Items<OrderKey>,
    limit: u32,
    table: GroupTable,
}

impl Model for Groups {
    ghost use Rattle.std.specs.Prelude.{◌≡◌, ◌++◌};
    ghost use Rattle.rt_agg.specs.Accumulators.{ordering_items};
    ghost use Rattle.rt_agg.specs.Grouped.{Grouped};

    ghost Value = { Grouped };

    ghost view = { λ g. record { columns = g.table.columns; items = g.items; order = g.order; limit = g.limit; groups = g.table.entries } };

    ghost invariant = { λ g. g.table.items ≡ g.items ++ ordering_items g.order };
}

impl Groups {
    /// The groups of a query before its first row.
    pub fn make(alloc: Global, query: &Query) -> Result<Groups, AllocError>
        ensures { IfOk result (Holds query.now []) }
    {
        let items = query.items.copied(alloc)?;
        let order = query.order.copied(alloc)?;
        let table = first_table(alloc, &query.groups, items.as_slice(), order.as_slice())?;
        Ok(Groups {
            items,
            order,
            limit: query.limit,
            table,
        })
    }

    /// The columns of the keys.
    pub fn columns(&self) -> &[ColumnAt]
        ensures { result.now ≡ self.now.columns }
    {
        self.table.columns()
    }

    /// The keys of the groups, by their indices.
    pub fn keys(&self) -> &[GroupKey]
        ensures { result.now ≡ keys_in_order self.now }
    {
        self.table.keys().as_slice()
    }

    /// The groups of a query that takes the rows of those groups of others that are marked. The others tell of them where
    /// they have the query's aggregates, and either its one column or, where it has none, at most one marked group; else it
    /// is refused as untold.
    pub fn pick(
        alloc: Global,
        query: &Query,
        others: &Groups,
        marks: &[bool],
    ) -> Result<Groups, PickRefused>
        ensures picks { IfOk result (Picks query.now marks.now others.now) }
        ensures untold { IfErr result (λ refused. refused ≡ Untold → Tells query.now marks.now others.now → ⊥) }
    {
        if query.groups.is_empty() {
            Groups::pick_whole(alloc, query, others, marks)
        } else if are_one_column(query.groups.as_slice(), others.columns()) {
            Groups::pick_alike(alloc, query, others, marks)
        } else {
            Err(PickRefused::Untold)
        }
    }

    // The groups of the same column.
    fn pick_alike(
        alloc: Global,
        query: &Query,
        others: &Groups,
        marks: &[bool],
    ) -> Result<Groups, PickRefused>
        requires alike { query.now.groups ≡ others.now.columns }
        requires some { query.now.groups ≡ [] → ⊥ }
        ensures picks { IfOk result (Picks query.now marks.now others.now) }
        ensures untold { IfErr result (λ refused. refused ≡ Untold → Tells query.now marks.now others.now → ⊥) }
    {
        let keys = others.table.keys().pick(alloc, marks)?;
        let groups = Groups::pick_keys(alloc, query, keys, others, marks)?;
        Ok(groups)
    }

    // The group of all rows.
    fn pick_whole(
        alloc: Global,
        query: &Query,
        others: &Groups,
        marks: &[bool],
    ) -> Result<Groups, PickRefused>
        requires { query.now.groups ≡ [] }
        ensures picks { IfOk result (Picks query.now marks.now others.now) }
        ensures untold { IfErr result (λ refused. refused ≡ Untold → Tells query.now marks.now others.now → ⊥) }
    {
        let keys = others.table.keys().pick(alloc, marks)?;
        match keys.len() {
            0 => {
                let groups = Groups::make(alloc, query)?;
                Ok(groups)
            }
            1 => {
                let whole = whole_key(alloc)?;
                let groups = Groups::pick_keys(alloc, query, whole, others, marks)?;
                Ok(groups)
            }
            _ => Err(PickRefused::Untold),
        }
    }

    // The groups of these keys.
    fn pick_keys(
        alloc: Global,
        query: &Query,
        keys: GroupKeys,
        others: &Groups,
        marks: &[bool],
    ) -> Result<Groups, PickRefused>
        requires long { length keys ≡ length (kept marks.now others.now.groups) }
        requires apart { IsDistinct same_key keys }
        ensures of { IfOk result (AreOf query.now) }
        ensures keys { IfOk result (λ g. keys_in_order g ≡ keys) }
        ensures among { IfOk result (λ g. AllByRecursion (IsAmong (all_items others.now)) (query.now.items ++ ordering_items query.now.order)) }
        ensures told { IfOk result (AreAllTold query.now marks.now others.now) }
        ensures untold { IfErr result (λ refused. refused ≡ Untold → AllByRecursion (IsAmong (all_items others.now)) (query.now.items ++ ordering_items query.now.order) → ⊥) }
    {
        let items = query.items.copied(alloc)?;
        let order = query.order.copied(alloc)?;
        let by = &query.groups;
        let others = &others.table;
        let table = GroupTable::pick(
            alloc,
            by,
            keys,
            items.as_slice(),
            order.as_slice(),
            others,
            marks,
        )?;
        Ok(Groups {
            items,
            order,
            limit: query.limit,
            table,
        })
    }

    /// Starts the group of a key that no group has, and gives its index, which is behind all others. Its first row is to follow.
    /// Where memory runs out, all is as before.
    pub fn start(&mut self, key: GroupKey) -> Result<usize, AllocError>
        requires { Contains (keys_in_order self.old) key → ⊥ }
        ensures awaits { OnOk result (AwaitsOne key self.old self.new) }
        ensures index { IfOk result (λ i. slice_get (keys_in_order self.new) i ≡ Some key) }
        ensures keys { OnOk result (keys_in_order self.new ≡ keys_in_order self.old ++ key ∷ []) }
        ensures err { OnErr result (self.new ≡ self.old) }
    {
        let index = self.table.start(key)?;
        Ok(index)
    }

    /// Adds the rows of a page, one after the other, each to the group at its index; a row with an index past the groups changes nothing. It takes no memory.
    pub fn add_page<R: ReadTable>(&mut self, page: &[PlacedRow], table: &R)
        ensures adds { AddsPage (R.row_of table.now) page.now self.old self.new }
        ensures keys { keys_in_order self.new ≡ keys_in_order self.old }
        ensures past { AllByRecursion (λ placed. slice_get self.old.groups placed.group ≡ None) page.now → self.new ≡ self.old }
    {
        self.table.add_page(page, table);
    }

    /// Adds a row that the query takes. Where memory runs out, all is as before.
    pub fn add_row(&mut self, alloc: Global, row: &Row) -> Result<(), AllocError>
        ensures adds { OnOk result (Adds row.now self.old self.new) }
        ensures err { OnErr result (self.new ≡ self.old) }
    {
        let key = key_of_row(alloc, self.table.columns(), row)?;
        let group = self.place(alloc, key)?;
        self.add_page(&[PlacedRow { row: 0, group }], row);
        Ok(())
    }

    // The index of the group of a key, which is started where the key is new. Where memory runs out, all is as before.
    fn place(&mut self, alloc: Global, key: GroupKey) -> Result<usize, AllocError>
        ensures awaits { OnOk result (AwaitsOne key self.old self.new) }
        ensures index { IfOk result (λ i. slice_get (keys_in_order self.new) i ≡ Some key) }
        ensures err { OnErr result (self.new ≡ self.old) }
    {
        self.table.index(alloc)?;
        match self.table.find(&key) {
            Some(index) => {
                drop(key);
                Ok(index)
            }
            None => {
                let index = self.start(key)?;
                Ok(index)
            }
        }
    }

    /// Takes all rows of other groups of the same query. Where memory runs out, all is as before.
    pub fn merge(&mut self, alloc: Global, other: &Groups) -> Result<(), AllocError>
        ensures merges { OnOk result (Merges self.old other.now self.new) }
        ensures err { OnErr result (self.new ≡ self.old) }
    {
        self.table.index(alloc)?;
        let count = self.table.len();
        match start_missing(alloc, &mut self.table, &other.table) {
            Ok(places) => {
                merge_each(&mut self.table, &other.table, &places);
                Ok(())
            }
            Err(error) => {
                self.table.truncate(count);
                Err(error)
            }
        }
    }

    /// The result rows: one for each group, by ORDER BY and then by the groups' keys, as many as the limit lets stand.
    pub fn finish(&self, alloc: Global) -> Result<Items<ResultRow>, AllocError>
        ensures { IfOk result (λ rows. Finishes self.now rows) }
    {
        if self.limit <= MOST_PLACED {
            self.finish_few(alloc)
        } else {
            self.finish_all(alloc)
        }
    }

    // The result rows, where few are asked for: the first groups are found one by one.
    fn finish_few(&self, alloc: Global) -> Result<Items<ResultRow>, AllocError>
        ensures { IfOk result (λ rows. Finishes self.now rows) }
    {
        let order = self.order.as_slice();
        let width = self.items.len();
        let places = first_places(alloc, order, width, &self.table, self.limit as usize)?;
        let rows = rows_at(alloc, width, &self.table, &places)?;
        Ok(rows)
    }

    // The result rows, where many are asked for: the places of all groups are sorted.
    fn finish_all(&self, alloc: Global) -> Result<Items<ResultRow>, AllocError>
        ensures { IfOk result (λ rows. Finishes self.now rows) }
    {
        let width = self.items.len();
        let mut places = all_places(alloc, self.table.len())?;
        sort(self.order.as_slice(), width, &self.table, &mut places);
        places.truncate(self.limit as usize);
        let rows = rows_at(alloc, width, &self.table, &places)?;
        Ok(rows)
    }
}

/// The groups before the first row: without GROUP BY there is one.
fn first_table(
    alloc: Global,
    columns: &Items<ColumnAt>,
    items: &[Item],
    order: &[OrderKey],
) -> Result<GroupTable, AllocError>
    ensures columns { IfOk result (λ t. t.columns ≡ columns.now) }
    ensures items { IfOk result (λ t. t.items ≡ items.now ++ ordering_items order.now) }
    ensures known { IfOk result (λ t. (key : List AnyValue) → lookup (same_key key) t.entries ≡ first_known columns.now items.now order.now key) }
    ensures apart { IfOk result (λ t. IsDistinct same_key (keys_of t.entries)) }
{
    let table = GroupTable::make(alloc, columns, items, order)?;
    if columns.is_empty() {
        let table = with_whole(alloc, table)?;
        Ok(table)
    } else {
        Ok(table)
    }
}

// The group of all rows, which is the first.
fn with_whole(alloc: Global, table: GroupTable) -> Result<GroupTable, AllocError>
    requires { table.entries ≡ [] }
    ensures same { IfOk result (IsOfSame table) }
    ensures entries { IfOk result (λ t. t.entries ≡ ([], map (known_of table.columns [] []) table.items) ∷ []) }
    ensures apart { IfOk result (λ t. IsDistinct same_key (keys_of t.entries)) }
{
    let mut table = table;
    table.start(GroupKey::of(Items::new(alloc)))?;
    Ok(table)
}

// The key of the group of all rows.
fn whole_key(alloc: Global) -> Result<GroupKeys, AllocError>
    ensures keys { IfOk result (λ keys. keys ≡ [] ∷ []) }
    ensures apart { IfOk result (IsDistinct same_key) }
{
    let mut keys = GroupKeys::new(alloc);
    keys.push(GroupKey::of(Items::new(alloc)))?;
    Ok(keys)
}

// Whether there is one column in both lists, and it is the same.
fn are_one_column(one: &[ColumnAt], other: &[ColumnAt]) -> bool
    ensures { IsTrue result ↔ AreOneColumn one.now other.now }
{
    match (one, other) {
        ([one], [other]) => is_same(one, other),
        _ => false,
    }
}

fn is_same(one: &ColumnAt, other: &ColumnAt) -> bool
    ensures { IsTrue result ↔ (one.now ≡ other.now) }
{
    one == other
}
