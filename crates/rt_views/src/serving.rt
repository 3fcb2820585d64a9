//! What servers serve of pieces.
ghost use Rattle.std.specs.Prelude.{◌≡◌, map, IfOk};
ghost use Rattle.rt_views.specs.Plans.{ends_behind, first_of, rows_from};
ghost use Rattle.rt_views.specs.Views.{all_from, found_from, unfound};

use crate::Found;
use rt_base::{Instance, Offset};
use rt_lists::Items;
use rt_model::Piece;
use rt_server::ServedRows;
use rt_world::World;
use std::alloc::{AllocError, Global};

// What a server that is up serves of a piece.
#[tactic(auto, using(crate::proofs::Served::in_order))]
fn rows_from(
    alloc: Global,
    world: &World,
    piece: Piece,
    instance: Instance,
) -> Result<Option<ServedRows>, AllocError>
    ensures { IfOk result (λ rows. rows ≡ rows_from world.now.state piece instance) }
{
    if ends_behind(piece.start, piece.end) {
        let rows = world.served_rows(alloc, instance, piece)?;
        Ok(rows)
    } else {
        Ok(None)
    }
}

fn ends_behind(start: Offset, end: Option<Offset>) -> bool
    ensures { result ≡ ends_behind start end }
{
    match end {
        Some(end) => start.0 <= end.0,
        None => true,
    }
}

/// What the first of some servers that serves a piece serves of it.
pub(crate) fn first_rows(
    alloc: Global,
    world: &World,
    piece: Piece,
    assigned: &[Instance],
) -> Result<Option<ServedRows>, AllocError>
    ensures { IfOk result (λ rows. rows ≡ first_of (rows_from world.now.state piece) assigned.now) }
{
    for instance in assigned {
        if let Some(rows) = rows_from(alloc, world, piece, *instance)? {
            return Ok(Some(rows));
        }
    }
    Ok(None)
}

/// Some pieces from the first of some servers that serves all of them.
pub(crate) fn first_all(
    alloc: Global,
    world: &World,
    pieces: &[Piece],
    assigned: &[Instance],
) -> Result<Option<Items<Found>>, AllocError>
    ensures { IfOk result (λ found. found ≡ first_of (all_from world.now.state pieces.now) assigned.now) }
{
    for instance in assigned {
        if let Some(found) = all_from(alloc, world, pieces, *instance)? {
            return Ok(Some(found));
        }
    }
    Ok(None)
}

// Some pieces from a server, where it serves all of them.
fn all_from(
    alloc: Global,
    world: &World,
    pieces: &[Piece],
    instance: Instance,
) -> Result<Option<Items<Found>>, AllocError>
    ensures { IfOk result (λ found. found ≡ all_from world.now.state pieces.now instance) }
{
    let mut all = Items::new(alloc);
    for piece in pieces {
        match found_from(alloc, world, *piece, instance)? {
            Some(found) => all.push(found)?,
            None => return Ok(None),
        }
    }
    Ok(Some(all))
}

fn found_from(
    alloc: Global,
    world: &World,
    piece: Piece,
    instance: Instance,
) -> Result<Option<Found>, AllocError>
    ensures { IfOk result (λ found. found ≡ found_from world.now.state instance piece) }
{
    match rows_from(alloc, world, piece, instance)? {
        Some(rows) => Ok(Some(Found {
            piece,
            rows: Some(rows),
        })),
        None => Ok(None),
    }
}

/// Some pieces, of which none is served.
pub(crate) fn none_found(alloc: Global, pieces: &[Piece]) -> Result<Items<Found>, AllocError>
    ensures { IfOk result (λ found. found ≡ map unfound pieces.now) }
{
    let mut found = Items::new(alloc);
    for piece in pieces {
        found.push(Found {
            piece: *piece,
            rows: None,
        })?;
    }
    Ok(found)
}
