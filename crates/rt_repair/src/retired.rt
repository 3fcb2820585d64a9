ghost use Rattle.std.specs.Prelude.{◌≡◌};
ghost use Rattle.rt_model.specs.Ideal.{has_entry, next_sequence};
ghost use Rattle.rt_repair.specs.Retired.{retire, retire_node, is_ended};

use crate::Retiring;
use rt_base::{Moment, Partition, Sequence};
use rt_ideal::has_entry;
use rt_model::{IdealEntry, IdealState, Listed, SegMeta, Status};

/// What a retirement of the partition does, by the metadata and the ideal state that it read, the moment, and how long
/// a segment is kept, in milliseconds. Takes no memory.
pub fn retire(
    nodes: &[Listed],
    partition: Partition,
    ideal: &IdealState,
    now: Moment,
    keep: u64,
) -> Retiring
    ensures { result ≡ retire nodes.now partition ideal.now.entries now keep }
{
    if nodes.len() < 2 {
        return Retiring::Nothing;
    }
    let lowest = &nodes[0];
    let entries = ideal.entries.as_slice();
    retire_lowest(
        lowest.sequence,
        &lowest.seen.meta,
        partition,
        entries,
        now,
        keep,
    )
}

/// What is decided by the lowest node, which isn't the last.
pub(crate) fn retire_lowest(
    sequence: Sequence,
    meta: &SegMeta,
    partition: Partition,
    entries: &[IdealEntry],
    now: Moment,
    keep: u64,
) -> Retiring
    ensures { result ≡ retire_node partition sequence meta.now entries.now now keep }
{
    if !is_ended(&meta.status) || now.0 < meta.written.0.saturating_add(keep) {
        return Retiring::Nothing;
    }
    if !has_entry(entries, partition, sequence) {
        return Retiring::Delete(sequence);
    }
    if has_next(entries, partition, sequence) {
        Retiring::Remove(sequence)
    } else {
        Retiring::Nothing
    }
}

fn is_ended(status: &Status) -> bool
    ensures { result ≡ is_ended status.now }
{
    match status {
        Status::InProgress => false,
        Status::Done(_) => true,
        Status::Abandoned => true,
    }
}

/// Whether the segment after this one has an entry.
fn has_next(entries: &[IdealEntry], partition: Partition, sequence: Sequence) -> bool
    ensures { result ≡ has_entry entries.now partition (next_sequence sequence) }
{
    for entry in entries {
        if entry.partition == partition
            && u64::from(entry.sequence.0) == u64::from(sequence.0) + 1
        {
            return true;
        }
    }
    false
}
