ghost use Rattle.std.specs.Prelude.{◌≡◌, ◌<◌, ◌++◌, ◌∷◌, [], cond, List, length, map, take, slice_get, Some, None, IfSome, IfNone, IfErr, IfOk, OnOk, OnErr};
ghost use Rattle.std.specs.List.{AllByRecursion, IsDistinct};
ghost use Rattle.std.specs.Map.{lookup, keys_of};
ghost use Rattle.rt_schema.specs.declared.value.Value.{Value as AnyValue};
ghost use Rattle.rt_agg.specs.Accumulator.{Accumulator};
ghost use Rattle.rt_agg.specs.Accumulators.{all_merged, known_of, ordering_items};
ghost use Rattle.rt_agg.specs.Grouped.{same_key};
ghost use Rattle.rt_agg.specs.GroupTable.{AddsRows, IsOfSame};
ghost use Rattle.rt_agg.specs.Picking.{IsAmong, PicksGroups, kept};
ghost use Rattle.rt_agg.specs.Ranking.{ranked_at};
ghost use Rattle.rt_agg.specs.declared.pick_refused.PickRefused.TheVariants.{Untold};
ghost use Rattle.rt_model.specs.Aggregate.{result_cmp};

use crate::group_keys::GroupKeys;
use crate::group_ref::GroupRef;
use crate::shared_holders::SharedHolders;
use crate::{GroupKey, PickRefused, PlacedRow, ReadTable};
use rt_lists::{Copied, Items};
use rt_model::{ColumnAt, Item, OrderKey, ResultRow};
use std::alloc::{AllocError, Global};
use std::cmp::Ordering;
use std::marker::Model;

/// Groups by their numbers, in the order in which they were started: the key of each, and for each item what is known of
/// its rows.
#[derive(Drop)]
pub(crate) struct GroupTable {
    columns: Items<ColumnAt>,
    keys: GroupKeys,
    holders: SharedHolders,
}

impl Model for GroupTable {
    ghost use Rattle.std.specs.Prelude.{map};
    ghost use Rattle.rt_agg.specs.ResultHolder.{item_of};
    ghost use Rattle.rt_agg.specs.GroupTable.{IsTable, Tabled, entries_from};

    ghost Value = { Tabled };

    ghost view = { λ t. record { columns = t.columns; items = map item_of t.holders; entries = entries_from t.columns t.holders 0 t.keys } };

    ghost invariant = { λ t. IsTable t.holders t.keys };
}

impl GroupTable {
    /// No group of a query that groups by some columns, and shows and orders by some items.
    pub(crate) fn make(
        alloc: Global,
        columns: &Items<ColumnAt>,
        items: &[Item],
        order: &[OrderKey],
    ) -> Result<GroupTable, AllocError>
        ensures columns { IfOk result (λ t. t.columns ≡ columns.now) }
        ensures items { IfOk result (λ t. t.items ≡ items.now ++ ordering_items order.now) }
        ensures none { IfOk result (λ t. t.entries ≡ []) }
    {
        let columns = columns.copied(alloc)?;
        let holders = SharedHolders::make(alloc, items, order)?;
        Ok(GroupTable {
            columns,
            keys: GroupKeys::new(alloc),
            holders,
        })
    }

    /// Groups of these keys, with what another table knows of its groups that are marked, in their order.
    pub(crate) fn pick(
        alloc: Global,
        columns: &Items<ColumnAt>,
        keys: GroupKeys,
        items: &[Item],
        order: &[OrderKey],
        other: &GroupTable,
        marks: &[bool],
    ) -> Result<GroupTable, PickRefused>
        requires long { length keys ≡ length (kept marks.now other.now.entries) }
        requires apart { IsDistinct same_key keys }
        ensures columns { IfOk result (λ t. t.columns ≡ columns.now) }
        ensures items { IfOk result (λ t. t.items ≡ items.now ++ ordering_items order.now) }
        ensures keys { IfOk result (λ t. keys_of t.entries ≡ keys) }
        ensures among { IfOk result (λ t. AllByRecursion (IsAmong other.now.items) t.items) }
        ensures picks { IfOk result (PicksGroups marks.now other.now) }
        ensures untold { IfErr result (λ refused. refused ≡ Untold
            → AllByRecursion (IsAmong other.now.items) (items.now ++ ordering_items order.now) → ⊥) }
    {
        let columns = columns.copied(alloc)?;
        let holders = SharedHolders::pick(alloc, items, order, &other.holders, marks)?;
        Ok(GroupTable {
            columns,
            keys,
            holders,
        })
    }

    /// The keys, by the groups' numbers.
    pub(crate) fn keys(&self) -> &GroupKeys
        ensures { result.now ≡ keys_of self.now.entries }
    {
        &self.keys
    }

    /// The columns of the keys.
    pub(crate) fn columns(&self) -> &[ColumnAt]
        ensures { result.now ≡ self.now.columns }
    {
        self.columns.as_slice()
    }

    /// The number of groups.
    pub(crate) fn len(&self) -> usize
        ensures len { result ≡ length self.now.entries }
        ensures apart { IsDistinct same_key (keys_of self.now.entries) }
    {
        self.keys.len()
    }

    /// The key of a group.
    pub(crate) fn key(&self, group: usize) -> &GroupKey
        requires { group < length self.now.entries }
        ensures { slice_get (keys_of self.now.entries) group ≡ Some result.now }
    {
        self.keys.get(group)
    }

    /// The group of a key, where it is there.
    pub(crate) fn find(&self, key: &GroupKey) -> Option<usize>
        ensures some { IfSome result (λ group. slice_get (keys_of self.now.entries) group ≡ Some key.now) }
        ensures none { IfNone result (lookup (same_key key.now) self.now.entries ≡ None) }
        ensures apart { IsDistinct same_key (keys_of self.now.entries) }
    {
        self.keys.find(key)
    }

    /// Makes groups be found by a hash of their keys. Fails only where memory is refused.
    pub(crate) fn index(&mut self, alloc: Global) -> Result<(), AllocError>
        ensures { self.new ≡ self.old }
    {
        self.keys.index(alloc)
    }

    /// Starts the group of a key that isn't there, behind all others, and gives it. Where memory runs out, all is as before.
    pub(crate) fn start(&mut self, key: GroupKey) -> Result<usize, AllocError>
        requires { lookup (same_key key) self.old.entries ≡ None }
        ensures group { IfOk result (λ group. group ≡ length self.old.entries) }
        ensures entries { OnOk result (self.new.entries ≡ self.old.entries ++ (key, map (known_of self.old.columns key []) self.old.items) ∷ []) }
        ensures same { OnOk result (IsOfSame self.old self.new) }
        ensures apart { OnOk result (IsDistinct same_key (keys_of self.new.entries)) }
        ensures err { OnErr result (self.new ≡ self.old) }
    {
        let next = self.keys.len();
        self.holders.start(next)?;
        self.keys.push(key)?;
        Ok(next)
    }

    /// Takes the rows of a page, one after the other, each into its group. It takes no memory.
    pub(crate) fn add_page<R: ReadTable>(&mut self, page: &[PlacedRow], table: &R)
        ensures rows { AddsRows (R.row_of table.now) page.now self.old self.new }
        ensures keys { keys_of self.new.entries ≡ keys_of self.old.entries }
        ensures same { IsOfSame self.old self.new }
    {
        self.holders.add_page(page, table);
    }

    /// Takes all rows of a group of another table for the same items into a group. It takes no memory.
    pub(crate) fn merge(&mut self, group: usize, other: &GroupTable, from: usize)
        ensures known { self.old.items ≡ other.now.items → (k : List AnyValue) (known : List Accumulator) → slice_get self.old.entries group ≡ Some (k, known) → (o : List AnyValue) (others : List Accumulator) → slice_get other.now.entries from ≡ Some (o, others) → (q : List AnyValue) → lookup (same_key q) self.new.entries ≡ cond (same_key k q) (Some (all_merged known others)) (lookup (same_key q) self.old.entries) }
        ensures keys { keys_of self.new.entries ≡ keys_of self.old.entries }
        ensures same { IsOfSame self.old self.new }
        ensures apart { IsDistinct same_key (keys_of self.new.entries) }
    {
        self.holders.merge(group, &other.holders, from);
    }

    /// How two groups stand by ORDER BY, and where that ties by their keys. The items are so many that are shown, and then
    /// those of the keys of ORDER BY. It takes no memory.
    pub(crate) fn compare(
        &self,
        order: &[OrderKey],
        width: usize,
        one: usize,
        other: usize,
    ) -> Ordering
        requires one { one < length self.now.entries }
        requires other { other < length self.now.entries }
        ensures { result ≡ result_cmp order.now (ranked_at width self.now.entries one) (ranked_at width self.now.entries other) }
    {
        let columns = self.columns.as_slice();
        let one = self.group(one);
        let other = self.group(other);
        self.holders
            .compare_behind(order, columns, width, &one, &other)
    }

    /// The result row of a group, of so many items.
    pub(crate) fn row(
        &self,
        alloc: Global,
        width: usize,
        group: usize,
    ) -> Result<ResultRow, AllocError>
        requires { group < length self.now.entries }
        ensures { IfOk result (λ row. row ≡ (ranked_at width self.now.entries group).row) }
    {
        let columns = self.columns.as_slice();
        let group = self.group(group);
        let cells = self.holders.cells_before(alloc, columns, width, &group)?;
        Ok(ResultRow { cells })
    }

    // A group by its number.
    fn group(&self, number: usize) -> GroupRef<'_>
        requires { number < length self.now.entries }
        ensures key { slice_get (keys_of self.now.entries) number ≡ Some result.key.now }
        ensures number { result.number ≡ number }
    {
        GroupRef {
            key: self.key(number),
            number,
        }
    }

    /// Keeps the first groups, so many.
    pub(crate) fn truncate(&mut self, count: usize)
        ensures entries { self.new.entries ≡ take count self.old.entries }
        ensures same { IsOfSame self.old self.new }
    {
        self.keys.truncate(count);
    }
}
