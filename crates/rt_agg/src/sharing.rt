//! Which items of a query are the same as earlier ones, and holders for the others.
ghost use Rattle.std.specs.Prelude.{◌≡◌, ◌↔◌, ◌<◌, ◌++◌, length, map, IfOk, IsTrue, OnOk};
ghost use Rattle.rt_agg.specs.Accumulators.{ordering_items};
ghost use Rattle.rt_agg.specs.ResultHolder.{item_of};
ghost use Rattle.rt_agg.specs.Sharing.{AreFirsts, AreHeld, IsFirst, IsHeld};

use crate::result_holder::ResultHolder;
use rt_lists::{Copied, Items, Text};
use rt_model::{ColumnAt, Item, OrderKey};
use std::alloc::{AllocError, Global};

/// Items, and then those of the keys of ORDER BY.
pub(crate) fn items_of(
    alloc: Global,
    items: &[Item],
    order: &[OrderKey],
) -> Result<Items<Item>, AllocError>
    ensures { IfOk result (λ all. all ≡ items.now ++ ordering_items order.now) }
{
    let mut all = Items::new(alloc);
    add_items(alloc, items, &mut all)?;
    add_order(alloc, order, &mut all)?;
    Ok(all)
}

fn add_items(alloc: Global, items: &[Item], all: &mut Items<Item>) -> Result<(), AllocError>
    ensures { OnOk result (all.new ≡ all.old ++ items.now) }
{
    for item in items {
        all.push(item.copied(alloc)?)?;
    }
    Ok(())
}

fn add_order(alloc: Global, order: &[OrderKey], all: &mut Items<Item>) -> Result<(), AllocError>
    ensures { OnOk result (all.new ≡ all.old ++ ordering_items order.now) }
{
    for key in order {
        all.push(key.item.copied(alloc)?)?;
    }
    Ok(())
}

/// For each item the first place of one that is the same.
pub(crate) fn places_of(alloc: Global, items: &[Item]) -> Result<Items<usize>, AllocError>
    ensures { IfOk result (λ places. AreFirsts items.now places) }
{
    let mut places = Vec::with_capacity(alloc, items.len())?;
    for i in 0..items.len() {
        places.push(first_place(items, i))?;
    }
    Ok(Items::of(places))
}

// The first place of an item that is the same as the one at a place.
fn first_place(items: &[Item], i: usize) -> usize
    requires { i < length items.now }
    ensures { IsFirst items.now i result }
{
    for place in 0..i {
        if is_same(&items[place], &items[i]) {
            return place;
        }
    }
    i
}

fn is_same(one: &Item, other: &Item) -> bool
    ensures { IsTrue result ↔ (one.now ≡ other.now) }
{
    one == other
}

/// For each item a holder, where its first place is its own, and an idle one for each other.
pub(crate) fn hold_all(
    alloc: Global,
    items: &[Item],
    places: &[usize],
) -> Result<Items<ResultHolder>, AllocError>
    requires { length places.now ≡ length items.now }
    ensures { IfOk result (λ held. AreHeld items.now places.now (length items.now) (map item_of held)) }
{
    let mut held = Vec::with_capacity(alloc, items.len())?;
    for i in 0..items.len() {
        held.push(hold_one(alloc, items, places, i)?)?;
    }
    Ok(Items::of(held))
}

fn hold_one(
    alloc: Global,
    items: &[Item],
    places: &[usize],
    i: usize,
) -> Result<ResultHolder, AllocError>
    requires item { i < length items.now }
    requires place { i < length places.now }
    ensures { IfOk result (λ holder. IsHeld items.now places.now i (item_of holder)) }
{
    if places[i] == i {
        ResultHolder::make(alloc, &items[i])
    } else {
        let name = Text::new(alloc);
        Ok(ResultHolder::Key(ColumnAt { name, place: 0 }))
    }
}
