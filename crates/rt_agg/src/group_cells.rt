//! What holders at places show of groups, and how groups stand by it.
ghost use Rattle.std.specs.Prelude.{◌≡◌, ◌<◌, All, drop, length, slice_index_or, take, IfOk};
ghost use Rattle.std.specs.Ordering.{ordering_then};
ghost use Rattle.rt_model.specs.Aggregate.{directed_cmp, order_cmp};
ghost use Rattle.rt_model.specs.declared.answer.Cell.TheVariants.{Null};
ghost use Rattle.rt_model.specs.Values.{key_cmp};
ghost use Rattle.rt_agg.specs.ResultHolder.{cell_held};
ghost use Rattle.rt_agg.specs.Sharing.{cells_at};

use crate::group_ref::GroupRef;
use crate::result_holder::ResultHolder;
use rt_lists::Items;
use rt_model::{Cell, ColumnAt, OrderKey};
use std::alloc::{AllocError, Global};
use std::cmp::Ordering;

/// The first places, so many: those of the items that are shown.
pub(crate) fn before(places: &[usize], width: usize) -> &[usize]
    ensures { result.now ≡ take width places.now }
{
    if width <= places.len() {
        &places[..width]
    } else {
        places
    }
}

/// The places behind so many: those of the keys of ORDER BY.
pub(crate) fn behind(places: &[usize], width: usize) -> &[usize]
    ensures { result.now ≡ drop width places.now }
{
    if width <= places.len() {
        &places[width..]
    } else {
        &[]
    }
}

/// The cells of a group.
pub(crate) fn cells_of(
    alloc: Global,
    columns: &[ColumnAt],
    held: &[ResultHolder],
    places: &[usize],
    group: &GroupRef<'_>,
) -> Result<Items<Cell>, AllocError>
    requires { All (λ p. p < length held.now) places.now }
    ensures { IfOk result (λ cells. cells ≡ cells_at columns.now group.now.key.now group.now.number held.now places.now) }
{
    let mut cells = Vec::with_capacity(alloc, places.len())?;
    for place in places {
        cells.push(held[*place].cell(alloc, columns, group)?)?;
    }
    Ok(Items::of(cells))
}

/// How two groups stand by the keys of ORDER BY, and where that ties by their keys.
pub(crate) fn compare_groups(
    order: &[OrderKey],
    columns: &[ColumnAt],
    held: &[ResultHolder],
    places: &[usize],
    one: &GroupRef<'_>,
    other: &GroupRef<'_>,
) -> Ordering
    requires { All (λ p. p < length held.now) places.now }
    ensures { result ≡ ordering_then (order_cmp order.now (cells_at columns.now one.now.key.now one.now.number held.now places.now) (cells_at columns.now other.now.key.now other.now.number held.now places.now)) (key_cmp one.now.key.now other.now.key.now) }
{
    match compare_orders(order, columns, held, places, one, other) {
        Ordering::Equal => one.key.compare(other.key),
        unequal => unequal,
    }
}

// How two groups stand by the keys of ORDER BY.
fn compare_orders(
    order: &[OrderKey],
    columns: &[ColumnAt],
    held: &[ResultHolder],
    places: &[usize],
    one: &GroupRef<'_>,
    other: &GroupRef<'_>,
) -> Ordering
    requires { All (λ p. p < length held.now) places.now }
    ensures { result ≡ order_cmp order.now (cells_at columns.now one.now.key.now one.now.number held.now places.now) (cells_at columns.now other.now.key.now other.now.number held.now places.now) }
{
    for (i, key) in order.iter().enumerate() {
        match compare_at(key.descending, columns, held, places, i, one, other) {
            Ordering::Equal => (),
            unequal => return unequal,
        }
    }
    Ordering::Equal
}

fn compare_at(
    descending: bool,
    columns: &[ColumnAt],
    held: &[ResultHolder],
    places: &[usize],
    i: usize,
    one: &GroupRef<'_>,
    other: &GroupRef<'_>,
) -> Ordering
    requires { All (λ p. p < length held.now) places.now }
    ensures { result ≡ directed_cmp descending (slice_index_or (cells_at columns.now one.now.key.now one.now.number held.now places.now) i Null) (slice_index_or (cells_at columns.now other.now.key.now other.now.number held.now places.now) i Null) }
{
    if i < places.len() {
        let holder = &held[places[i]];
        compare_directed(descending, columns, holder, one, other)
    } else {
        Ordering::Equal
    }
}

fn compare_directed(
    descending: bool,
    columns: &[ColumnAt],
    holder: &ResultHolder,
    one: &GroupRef<'_>,
    other: &GroupRef<'_>,
) -> Ordering
    ensures { result ≡ directed_cmp descending (cell_held columns.now one.now.key.now one.now.number holder.now) (cell_held columns.now other.now.key.now other.now.number holder.now) }
{
    if descending {
        holder.compare(columns, other, one)
    } else {
        holder.compare(columns, one, other)
    }
}
