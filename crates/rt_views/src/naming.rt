//! What an answer names: the ranges that were served, and the pieces that were not.
ghost use Rattle.std.specs.Prelude.{◌≡◌, ◌++◌, map, OnOk, IfOk};
ghost use Rattle.rt_model.specs.RightAnswer.{missing_of, named_in, named_ranges, unserved};
ghost use Rattle.rt_views.specs.Answers.{answer_with};
ghost use Rattle.rt_views.specs.Views.{asked_of, routed_of};

use crate::ranges::merged_ranges;
use crate::{Found, View};
use rt_base::{Partition, Range, Sequence};
use rt_lists::Items;
use rt_model::{Answer, ResultRow};
use std::alloc::{AllocError, Global};

/// The answer of some views, with its result rows.
pub(crate) fn answer_with(
    alloc: Global,
    views: &[View],
    rows: Items<ResultRow>,
) -> Result<Answer, AllocError>
    ensures { IfOk result (λ answer. answer ≡ answer_with views.now rows) }
{
    Ok(Answer {
        ranges: named_ranges(alloc, views)?,
        missing: missing_of(alloc, views)?,
        rows,
    })
}

fn named_ranges(alloc: Global, views: &[View]) -> Result<Items<(Partition, Range)>, AllocError>
    ensures { IfOk result (λ ranges. ranges ≡ named_ranges (map routed_of views.now)) }
{
    let mut named = Items::new(alloc);
    for view in views {
        name_view(alloc, &mut named, view)?;
    }
    Ok(named)
}

fn name_view(
    alloc: Global,
    named: &mut Items<(Partition, Range)>,
    view: &View,
) -> Result<(), AllocError>
    ensures { OnOk result (named.new ≡ named.old ++ named_in (routed_of view.now)) }
{
    let ranges = merged_ranges(alloc, view.found.as_slice())?;
    name_ranges(named, view.partition, ranges.as_slice())
}

fn name_ranges(
    named: &mut Items<(Partition, Range)>,
    partition: Partition,
    ranges: &[Range],
) -> Result<(), AllocError>
    ensures { OnOk result (named.new ≡ named.old ++ map (λ r. (partition, r)) ranges.now) }
{
    for range in ranges {
        named.push((partition, *range))?;
    }
    Ok(())
}

fn missing_of(
    alloc: Global,
    views: &[View],
) -> Result<Items<(Partition, Option<Sequence>)>, AllocError>
    ensures { IfOk result (λ missing. missing ≡ missing_of (map routed_of views.now)) }
{
    let mut missing = Items::new(alloc);
    for view in views {
        add_missing(&mut missing, view.partition, view.found.as_slice())?;
    }
    Ok(missing)
}

fn add_missing(
    missing: &mut Items<(Partition, Option<Sequence>)>,
    partition: Partition,
    found: &[Found],
) -> Result<(), AllocError>
    ensures { OnOk result (missing.new ≡ missing.old ++ unserved partition (map asked_of found.now)) }
{
    for piece in found {
        match &piece.rows {
            Some(_) => (),
            None => missing.push((partition, Some(piece.piece.sequence)))?,
        }
    }
    Ok(())
}
