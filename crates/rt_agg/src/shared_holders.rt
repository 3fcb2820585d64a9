ghost use Rattle.std.specs.Prelude.{◌≡◌, ◌++◌, ℕ, drop, map, take, IfErr, IfOk, OnOk};
ghost use Rattle.std.specs.List.{AllByRecursion};
ghost use Rattle.std.specs.Ordering.{ordering_then};
ghost use Rattle.rt_model.specs.Aggregate.{order_cmp};
ghost use Rattle.rt_model.specs.Values.{key_cmp};
ghost use Rattle.rt_agg.specs.Accumulators.{ordering_items};
ghost use Rattle.rt_agg.specs.GroupTable.{StartsSome, all_merged_in};
ghost use Rattle.rt_agg.specs.Picking.{IsAmong, IsPicked};
ghost use Rattle.rt_agg.specs.ResultHolder.{HasStarted, cell_held, item_of, started_in, with_page_in};
ghost use Rattle.rt_agg.specs.declared.pick_refused.PickRefused.TheVariants.{Untold};

use crate::all_holders::{add_page_to_all, merge_all, start_all};
use crate::group_cells::{before, behind, cells_of, compare_groups};
use crate::group_ref::GroupRef;
use crate::picking::pick_all;
use crate::result_holder::ResultHolder;
use crate::sharing::{hold_all, items_of, places_of};
use crate::{PickRefused, PlacedRow, ReadTable};
use rt_lists::Items;
use rt_model::{Cell, ColumnAt, Item, OrderKey};
use std::alloc::{AllocError, Global};
use std::cmp::Ordering;
use std::marker::Model;

/// Holders for the items of a query, and then for the keys of ORDER BY. An item that is the same as an earlier one has the
/// holder of that one.
#[derive(Drop)]
pub(crate) struct SharedHolders {
    /// The holders at the places of their items; where an earlier item is the same, one that holds nothing.
    held: Items<ResultHolder>,
    /// The place of each item's holder.
    places: Items<usize>,
}

impl Model for SharedHolders {
    ghost use Rattle.std.specs.Prelude.{List, map};
    ghost use Rattle.rt_agg.specs.declared.result_holder.ResultHolder.{ResultHolder as Holder};
    ghost use Rattle.rt_agg.specs.ResultHolder.{item_of};
    ghost use Rattle.rt_agg.specs.Sharing.{IsShared, spread};

    ghost Value = { List Holder };

    ghost view = { λ a. spread a.places a.held };

    ghost invariant = { λ a. IsShared a.places (map item_of a.held) };
}

impl SharedHolders {
    /// Holders that hold no group yet.
    pub(crate) fn make(
        alloc: Global,
        items: &[Item],
        order: &[OrderKey],
    ) -> Result<SharedHolders, AllocError>
        ensures { IfOk result (λ all. map item_of all ≡ items.now ++ ordering_items order.now) }
    {
        let all = items_of(alloc, items, order)?;
        let places = places_of(alloc, all.as_slice())?;
        let held = hold_all(alloc, all.as_slice(), places.as_slice())?;
        Ok(SharedHolders { held, places })
    }

    /// Holders with what others have of the groups that are marked.
    pub(crate) fn pick(
        alloc: Global,
        items: &[Item],
        order: &[OrderKey],
        others: &SharedHolders,
        marks: &[bool],
    ) -> Result<SharedHolders, PickRefused>
        ensures items { IfOk result (λ all. map item_of all ≡ items.now ++ ordering_items order.now) }
        ensures picked { IfOk result (AllByRecursion (IsPicked others.now marks.now)) }
        ensures untold { IfErr result (λ refused. refused ≡ Untold
            → AllByRecursion (IsAmong (map item_of others.now)) (items.now ++ ordering_items order.now) → ⊥) }
    {
        let all = items_of(alloc, items, order)?;
        let places = places_of(alloc, all.as_slice())?;
        let theirs = others.held.as_slice();
        let at = others.places.as_slice();
        let held = pick_all(alloc, all.as_slice(), places.as_slice(), theirs, at, marks)?;
        Ok(SharedHolders { held, places })
    }

    /// Starts a group in each holder. Where memory runs out, some have started it.
    pub(crate) fn start(&mut self, group: usize) -> Result<(), AllocError>
        requires { AllByRecursion (HasStarted group) self.old }
        ensures started { OnOk result (self.new ≡ map (started_in group) self.old) }
        ensures some { StartsSome group self.old self.new }
    {
        start_all(&mut self.held, group)
    }

    /// Takes the rows of a page into each holder, each row into its group.
    pub(crate) fn add_page<R: ReadTable>(&mut self, page: &[PlacedRow], table: &R)
        ensures { self.new ≡ map (with_page_in (R.row_of table.now) page.now) self.old }
    {
        add_page_to_all(&mut self.held, page, table);
    }

    /// Takes the rows of a group of other holders for the same items into a group of each.
    pub(crate) fn merge(&mut self, group: usize, others: &SharedHolders, from: usize)
        ensures merged { map item_of self.old ≡ map item_of others.now → self.new ≡ all_merged_in group from self.old others.now }
        ensures items { map item_of self.new ≡ map item_of self.old }
        ensures started { (count : ℕ) → AllByRecursion (HasStarted count) self.old → AllByRecursion (HasStarted count) self.new }
    {
        merge_all(&mut self.held, group, &others.held, from);
    }

    /// The cells of a group for the first items, so many.
    pub(crate) fn cells_before(
        &self,
        alloc: Global,
        columns: &[ColumnAt],
        width: usize,
        group: &GroupRef<'_>,
    ) -> Result<Items<Cell>, AllocError>
        ensures { IfOk result (λ cells. cells ≡ map (cell_held columns.now group.now.key.now group.now.number) (take width self.now)) }
    {
        let places = before(self.places.as_slice(), width);
        let held = self.held.as_slice();
        cells_of(alloc, columns, held, places, group)
    }

    /// How two groups stand by the keys of ORDER BY, whose items are those from a place on, and where that ties by their keys.
    pub(crate) fn compare_behind(
        &self,
        order: &[OrderKey],
        columns: &[ColumnAt],
        width: usize,
        one: &GroupRef<'_>,
        other: &GroupRef<'_>,
    ) -> Ordering
        ensures { result ≡ ordering_then (order_cmp order.now (map (cell_held columns.now one.now.key.now one.now.number) (drop width self.now)) (map (cell_held columns.now other.now.key.now other.now.number) (drop width self.now))) (key_cmp one.now.key.now other.now.key.now) }
    {
        let places = behind(self.places.as_slice(), width);
        let held = self.held.as_slice();
        compare_groups(order, columns, held, places, one, other)
    }
}
