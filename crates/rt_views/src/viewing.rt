//! The views of all partitions.
ghost use Rattle.std.specs.Prelude.{◌≡◌, map, IfOk, IsFalse};
ghost use Rattle.rt_views.specs.Plans.{assigned_to};
ghost use Rattle.rt_views.specs.Views.{found_each, found_whole, view_each, view_whole, views_each, views_whole};

use crate::serving::{first_all, first_rows, none_found};
use crate::{Found, View};
use rt_assign::replicas;
use rt_base::{Instance, Partition};
use rt_lists::Items;
use rt_model::Piece;
use rt_world::World;
use std::alloc::{AllocError, Global};

/// For each partition each piece from the first server that serves it.
#[tactic(auto, using(crate::proofs::ViewLists::each_more))]
pub(crate) fn views_each(alloc: Global, world: &World) -> Result<Items<View>, AllocError>
    requires { IsFalse world.now.spent }
    ensures { IfOk result (λ views. views ≡ views_each world.now.state) }
{
    let mut views = Items::new(alloc);
    for number in 0..world.setup().partitions {
        views.push(view_each(alloc, world, number)?)?;
    }
    Ok(views)
}

/// For each partition all pieces from the first server that serves every one of them.
#[tactic(auto, using(crate::proofs::ViewLists::whole_more))]
pub(crate) fn views_whole(alloc: Global, world: &World) -> Result<Items<View>, AllocError>
    requires { IsFalse world.now.spent }
    ensures { IfOk result (λ views. views ≡ views_whole world.now.state) }
{
    let mut views = Items::new(alloc);
    for number in 0..world.setup().partitions {
        views.push(view_whole(alloc, world, number)?)?;
    }
    Ok(views)
}

fn view_each(alloc: Global, world: &World, number: u32) -> Result<View, AllocError>
    requires { IsFalse world.now.spent }
    ensures { IfOk result (λ view. view ≡ view_each world.now.state number) }
{
    let partition = Partition(number);
    let pieces = world.plan_now(alloc, partition)?;
    Ok(View {
        partition,
        found: found_each(alloc, world, partition, pieces.as_slice())?,
    })
}

fn view_whole(alloc: Global, world: &World, number: u32) -> Result<View, AllocError>
    requires { IsFalse world.now.spent }
    ensures { IfOk result (λ view. view ≡ view_whole world.now.state number) }
{
    let partition = Partition(number);
    Ok(View {
        partition,
        found: found_whole(alloc, world, partition)?,
    })
}

fn found_each(
    alloc: Global,
    world: &World,
    partition: Partition,
    pieces: &[Piece],
) -> Result<Items<Found>, AllocError>
    requires { IsFalse world.now.spent }
    ensures { IfOk result (λ found. found ≡ map (found_each world.now.state partition) pieces.now) }
{
    let assigned = assigned_to(alloc, world, partition)?;
    let mut found = Items::new(alloc);
    for piece in pieces {
        found.push(Found {
            piece: *piece,
            rows: first_rows(alloc, world, *piece, assigned.as_slice())?,
        })?;
    }
    Ok(found)
}

fn found_whole(
    alloc: Global,
    world: &World,
    partition: Partition,
) -> Result<Items<Found>, AllocError>
    requires { IsFalse world.now.spent }
    ensures { IfOk result (λ found. found ≡ found_whole world.now.state partition) }
{
    let pieces = world.plan_now(alloc, partition)?;
    let assigned = assigned_to(alloc, world, partition)?;
    match first_all(alloc, world, pieces.as_slice(), assigned.as_slice())? {
        Some(found) => Ok(found),
        None => none_found(alloc, pieces.as_slice()),
    }
}

// The servers of a partition, in assignment order.
fn assigned_to(
    alloc: Global,
    world: &World,
    partition: Partition,
) -> Result<Items<Instance>, AllocError>
    requires { IsFalse world.now.spent }
    ensures { IfOk result (λ assigned. assigned ≡ assigned_to world.now.state partition) }
{
    let setup = world.setup();
    replicas(alloc, partition, setup.table.replication, setup.servers)
}
