ghost use Rattle.std.specs.Prelude.{◌≡◌, ◌≤◌, ◌++◌, length, IfOk, OnOk};
ghost use Rattle.rt_base.specs.declared.limits.TheConstants.{MOST_PARTITIONS};
ghost use Rattle.rt_live_broker.specs.Counted.{counted};
ghost use Rattle.rt_live_names.specs.Whole.{lengths_in, whole_from, whole_in};

use rt_base::{Offset, Partition, Range};
use rt_ground::Appended;
use rt_lists::Items;
use std::alloc::{AllocError, Global};

/// How many messages of the input each partition has. Fails only where memory is refused.
pub fn lengths_of(
    alloc: Global,
    partitions: u32,
    rows: &[Appended],
) -> Result<Items<Offset>, AllocError>
    ensures { IfOk result (λ lengths. lengths ≡ lengths_in partitions rows.now) }
{
    let mut lengths = Items::new(alloc);
    for _partition in 0..partitions {
        lengths.push(Offset(0))?;
    }
    for row in rows {
        count(&mut lengths, row.partition)?;
    }
    Ok(lengths)
}

// Counts a message of a partition, where there is one of this number. No list in memory has more than 64 bits count.
fn count(lengths: &mut Items<Offset>, partition: Partition) -> Result<(), AllocError>
    ensures { OnOk result (lengths.new ≡ counted lengths.old partition) }
{
    let place = partition.0 as usize;
    let Some(length) = lengths.get(place) else {
        return Ok(());
    };
    let Some(more) = length.0.checked_add(1) else {
        return Err(AllocError);
    };
    *lengths.at_mut(place) = Offset(more);
    Ok(())
}

/// What an answer names that leaves nothing out, where partitions have these lengths: of each that has messages the
/// range of all. Fails only where memory is refused.
pub(crate) fn whole_ranges(
    alloc: Global,
    lengths: &[Offset],
) -> Result<Items<(Partition, Range)>, AllocError>
    requires { length lengths.now ≤ MOST_PARTITIONS }
    ensures { IfOk result (λ ranges. ranges ≡ whole_from 0 lengths.now) }
{
    let mut ranges = Items::new(alloc);
    for (number, length) in lengths.iter().enumerate() {
        add_whole(&mut ranges, Partition(number as u32), *length)?;
    }
    Ok(ranges)
}

// Adds the range of all messages of a partition, where it has some.
fn add_whole(
    ranges: &mut Items<(Partition, Range)>,
    partition: Partition,
    length: Offset,
) -> Result<(), AllocError>
    ensures { OnOk result (ranges.new ≡ ranges.old ++ whole_in partition length) }
{
    if length.0 == 0 {
        return Ok(());
    }
    let range = Range {
        start: Offset(0),
        end: length,
    };
    ranges.push((partition, range))
}
