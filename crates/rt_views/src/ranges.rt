//! The maximal ranges that were served.
ghost use Rattle.std.specs.Prelude.{◌≡◌, ◌++◌, map, OnOk, IfOk};
ghost use Rattle.rt_broker.specs.Merging.{both, pushed};
ghost use Rattle.rt_model.specs.RightAnswer.{merged, served_ranges};
ghost use Rattle.rt_views.specs.Views.{asked_of};

use crate::Found;
use rt_base::Range;
use rt_lists::Items;
use std::alloc::{AllocError, Global};

/// The maximal ranges of what was found of a partition, empty ones left out.
pub(crate) fn merged_ranges(alloc: Global, found: &[Found]) -> Result<Items<Range>, AllocError>
    ensures { IfOk result (λ ranges. ranges ≡ merged (served_ranges (map asked_of found.now))) }
{
    let mut ranges = Items::new(alloc);
    for piece in found {
        match &piece.rows {
            Some(served) => add_range(&mut ranges, served.range)?,
            None => (),
        }
    }
    Ok(ranges)
}

// Adds a range behind merged ones: an empty one is dropped, and one that begins where the last one ends goes on with it.
#[tactic(auto, using(rt_broker::proofs::Merging::behind_last))]
fn add_range(ranges: &mut Items<Range>, range: Range) -> Result<(), AllocError>
    ensures { OnOk result (ranges.new ≡ pushed range ranges.old) }
{
    if range.start == range.end {
        return Ok(());
    }
    match ranges.pop() {
        None => ranges.push(range),
        Some(last) => add_behind(ranges, last, range),
    }
}

// Adds a range behind the last of some ranges, or both as one where they meet.
fn add_behind(ranges: &mut Items<Range>, last: Range, range: Range) -> Result<(), AllocError>
    ensures { OnOk result (ranges.new ≡ ranges.old ++ both last range) }
{
    if last.end == range.start {
        return ranges.push(Range {
            start: last.start,
            end: range.end,
        });
    }
    ranges.push(last)?;
    ranges.push(range)
}
