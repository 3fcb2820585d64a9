ghost use Rattle.std.specs.Prelude.{◌≡◌, ◌≤◌, ◌++◌, map, length, OnOk, IfOk};
ghost use Rattle.rt_base.specs.declared.limits.TheConstants.{MOST_PARTITIONS};
ghost use Rattle.rt_base.specs.declared.numbers.Partition.{Partition as APartition};
ghost use Rattle.rt_model.specs.Aggregate.{result_rows};
ghost use Rattle.rt_model.specs.RightAnswer.{named_in, named_ranges, missing_of, missing_in, unserved};
ghost use Rattle.rt_broker.specs.Answering.{
  AreFew,
  AreHeld,
  Gains,
  RowsOf,
  asked_piece,
  pieces_in,
  routed_from,
  rows_held,
  served_from,
  served_pieces,
  served_route,
  under,
};
ghost use Rattle.rt_broker.specs.Asking.{served_in};

use crate::ranges::merged_ranges;
use crate::{PieceAsked, Route};
use rt_agg::Groups;
use rt_base::{Partition, Range, Sequence};
use rt_lists::Items;
use rt_model::{Query, ResultRow};
use std::alloc::{AllocError, Global};

/// The maximal ranges that were served, by partition and start.
pub(crate) fn named_ranges(
    alloc: Global,
    routes: &[Route],
) -> Result<Items<(Partition, Range)>, AllocError>
    requires { length routes.now ≤ MOST_PARTITIONS }
    ensures { IfOk result (λ ranges. ranges ≡ named_ranges (routed_from 0 routes.now)) }
{
    let mut named = Items::new(alloc);
    for (number, route) in routes.iter().enumerate() {
        name_route(alloc, &mut named, Partition(number as u32), route)?;
    }
    Ok(named)
}

/// Adds the ranges that were served of a partition.
fn name_route(
    alloc: Global,
    named: &mut Items<(Partition, Range)>,
    partition: Partition,
    route: &Route,
) -> Result<(), AllocError>
    ensures { OnOk result (named.new ≡ named.old ++ named_in (record { partition = partition; pieces = pieces_in route.now })) }
{
    match route {
        Route::Planned(plan) => {
            let ranges = merged_ranges(alloc, plan.asked())?;
            name_ranges(named, partition, ranges.as_slice())
        }
        Route::Failed => Ok(()),
        Route::Untried => Ok(()),
    }
}

/// Adds the ranges of a partition.
fn name_ranges(
    named: &mut Items<(Partition, Range)>,
    partition: Partition,
    ranges: &[Range],
) -> Result<(), AllocError>
    ensures { OnOk result (named.new ≡ named.old ++ map (λ r. (partition, r)) ranges.now) }
{
    for range in ranges {
        named.push((partition, *range))?;
    }
    Ok(())
}

/// Each piece that wasn't served, and each partition that couldn't be routed.
pub(crate) fn missing_of(
    alloc: Global,
    routes: &[Route],
) -> Result<Items<(Partition, Option<Sequence>)>, AllocError>
    requires { length routes.now ≤ MOST_PARTITIONS }
    ensures { IfOk result (λ missing. missing ≡ missing_of (routed_from 0 routes.now)) }
{
    let mut missing = Items::new(alloc);
    for (number, route) in routes.iter().enumerate() {
        add_missing(&mut missing, Partition(number as u32), route)?;
    }
    Ok(missing)
}

/// Adds what is missing of a partition.
fn add_missing(
    missing: &mut Items<(Partition, Option<Sequence>)>,
    partition: Partition,
    route: &Route,
) -> Result<(), AllocError>
    ensures { OnOk result (missing.new ≡ missing.old ++ missing_in partition (pieces_in route.now)) }
{
    match route {
        Route::Planned(plan) => add_unserved(missing, partition, plan.asked()),
        Route::Failed => missing.push((partition, None)),
        Route::Untried => missing.push((partition, None)),
    }
}

/// Adds the pieces of a partition that weren't served.
fn add_unserved(
    missing: &mut Items<(Partition, Option<Sequence>)>,
    partition: Partition,
    asked: &[PieceAsked],
) -> Result<(), AllocError>
    ensures { OnOk result (missing.new ≡ missing.old ++ unserved partition (map asked_piece asked.now)) }
{
    for piece in asked {
        match piece.served() {
            Some(_served) => (),
            None => missing.push((partition, Some(piece.piece.sequence)))?,
        }
    }
    Ok(())
}

/// The result rows over all that was served. The groups that it merges into are its own.
#[tactic(auto, using(crate::proofs::Gaining::rows_finished))]
pub(crate) fn rows_of(
    alloc: Global,
    query: &Query,
    routes: &[Route],
) -> Result<Items<ResultRow>, AllocError>
    ensures { IfOk result (λ result. (rows : RowsOf) → AreHeld query.now rows (served_from 0 routes.now)
        → AreFew (rows_held rows (served_from 0 routes.now))
        → result ≡ result_rows query.now (rows_held rows (served_from 0 routes.now))) }
{
    let mut groups = Groups::make(alloc, query)?;
    gain_all(alloc, &mut groups, routes)?;
    let rows = groups.finish(alloc)?;
    Ok(rows)
}

/// Merges the groups of all that was served.
fn gain_all(alloc: Global, groups: &mut Groups, routes: &[Route]) -> Result<(), AllocError>
    ensures { OnOk result (Gains (served_from 0 routes.now) groups.old groups.new) }
{
    for route in routes {
        gain_route(alloc, groups, route)?;
    }
    Ok(())
}

/// Merges the groups of what was served of a partition.
#[tactic(auto, using(crate::proofs::Gaining::gained_none))]
fn gain_route(alloc: Global, groups: &mut Groups, route: &Route) -> Result<(), AllocError>
    ensures { OnOk result ((p : APartition) → Gains (served_route p route.now) groups.old groups.new) }
{
    match route {
        Route::Planned(plan) => gain_pieces(alloc, groups, plan.asked()),
        Route::Failed => Ok(()),
        Route::Untried => Ok(()),
    }
}

/// Merges the groups of the pieces of a plan that were served.
fn gain_pieces(alloc: Global, groups: &mut Groups, asked: &[PieceAsked]) -> Result<(), AllocError>
    ensures { OnOk result ((p : APartition) → Gains (served_pieces p asked.now) groups.old groups.new) }
{
    for piece in asked {
        gain_piece(alloc, groups, piece)?;
    }
    Ok(())
}

/// Merges the groups of a piece, where it was served.
#[tactic(auto, using(crate::proofs::Gaining::gained_none, crate::proofs::Gaining::gained_one))]
fn gain_piece(alloc: Global, groups: &mut Groups, piece: &PieceAsked) -> Result<(), AllocError>
    ensures { OnOk result ((p : APartition) → Gains (under p (served_in piece.now.answers)) groups.old groups.new) }
{
    match piece.served() {
        Some(served) => groups.merge(alloc, &served.groups),
        None => Ok(()),
    }
}
