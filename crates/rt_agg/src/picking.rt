//! Holders for the items of a query, with what others have of the groups that are marked.
ghost use Rattle.std.specs.Prelude.{◌≡◌, ◌<◌, All, Contains, length, map, slice_get, IfErr, IfNone, IfOk, IfSome, Some};
ghost use Rattle.std.specs.List.{AllByRecursion};
ghost use Rattle.rt_model.specs.declared.query_parts.Item.{Item as AnyItem};
ghost use Rattle.rt_agg.specs.Picking.{IsAmong, IsPicked};
ghost use Rattle.rt_agg.specs.ResultHolder.{item_of};
ghost use Rattle.rt_agg.specs.Sharing.{AreHeld, IsHeld, spread};
ghost use Rattle.rt_agg.specs.declared.pick_refused.PickRefused.TheVariants.{Untold};

use crate::PickRefused;
use crate::result_holder::ResultHolder;
use rt_lists::{Copied, Items, Text};
use rt_model::{ColumnAt, Item};
use std::alloc::Global;

/// For each item a holder, where its first place is its own, and an idle one for each other. The others are held at places.
pub(crate) fn pick_all(
    alloc: Global,
    items: &[Item],
    places: &[usize],
    others: &[ResultHolder],
    others_places: &[usize],
    marks: &[bool],
) -> Result<Items<ResultHolder>, PickRefused>
    requires long { length places.now ≡ length items.now }
    requires within { All (λ p. p < length others.now) others_places.now }
    ensures held { IfOk result (λ held. AreHeld items.now places.now (length items.now) (map item_of held)) }
    ensures picked { IfOk result (AllByRecursion (IsPicked (spread others_places.now others.now) marks.now)) }
    ensures untold { IfErr result (λ refused. refused ≡ Untold
        → AllByRecursion (IsAmong (map item_of (spread others_places.now others.now))) items.now → ⊥) }
{
    let mut held = Items::new(alloc);
    for i in 0..items.len() {
        held.push(pick_one(alloc, items, places, i, others, others_places, marks)?)?;
    }
    Ok(held)
}

fn pick_one(
    alloc: Global,
    items: &[Item],
    places: &[usize],
    i: usize,
    others: &[ResultHolder],
    others_places: &[usize],
    marks: &[bool],
) -> Result<ResultHolder, PickRefused>
    requires item { i < length items.now }
    requires place { i < length places.now }
    requires within { All (λ p. p < length others.now) others_places.now }
    ensures held { IfOk result (λ holder. IsHeld items.now places.now i (item_of holder)) }
    ensures picked { IfOk result (IsPicked (spread others_places.now others.now) marks.now) }
    ensures untold { IfErr result (λ refused. refused ≡ Untold → (item : AnyItem)
        → slice_get items.now i ≡ Some item → IsAmong (map item_of (spread others_places.now others.now)) item → ⊥) }
{
    if places[i] == i {
        pick_item(alloc, &items[i], others, others_places, marks)
    } else {
        let name = Text::new(alloc);
        Ok(ResultHolder::Key(ColumnAt { name, place: 0 }))
    }
}

// A holder for an item, with what the other for it has of the groups that are marked.
fn pick_item(
    alloc: Global,
    item: &Item,
    others: &[ResultHolder],
    others_places: &[usize],
    marks: &[bool],
) -> Result<ResultHolder, PickRefused>
    requires { All (λ p. p < length others.now) others_places.now }
    ensures item { IfOk result (λ holder. item_of holder ≡ item.now) }
    ensures picked { IfOk result (IsPicked (spread others_places.now others.now) marks.now) }
    ensures untold { IfErr result (λ refused. refused ≡ Untold
        → IsAmong (map item_of (spread others_places.now others.now)) item.now → ⊥) }
{
    match item {
        Item::Column(column) => Ok(ResultHolder::Key(column.copied(alloc)?)),
        Item::Aggregate(_) => match find_holder(item, others, others_places) {
            Some(other) => Ok(other.pick(alloc, marks)?),
            None => Err(PickRefused::Untold),
        },
    }
}

// The holder for an item, where there is one.
fn find_holder<'a>(
    item: &Item,
    holders: &'a [ResultHolder],
    places: &[usize],
) -> Option<&'a ResultHolder>
    requires { All (λ p. p < length holders.now) places.now }
    ensures item { IfSome result (λ holder. item_of holder.now ≡ item.now) }
    ensures there { IfSome result (λ holder. Contains (spread places.now holders.now) holder.now) }
    ensures none { IfNone result (Contains (map item_of (spread places.now holders.now)) item.now → ⊥) }
{
    for place in places {
        let holder = &holders[*place];
        if holder.is_for(item) {
            return Some(holder);
        }
    }
    None
}
