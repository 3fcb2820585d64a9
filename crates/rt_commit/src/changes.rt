ghost use Rattle.std.specs.Prelude.{◌≡◌};
ghost use Rattle.rt_model.specs.Ideal.{has_entry, next_sequence};
ghost use Rattle.rt_commit.specs.Changes.{are_online, commit_changes, offline_changes, committed_count};

use rt_base::{Instance, Partition, Sequence};
use rt_ideal::has_entry;
use rt_model::{IdealEntry, Mode};

/// Whether the commit of a segment changes the ideal state: the segment has an entry, and one that isn't ONLINE or none
/// of the next segment.
pub(crate) fn commit_changes(
    entries: &[IdealEntry],
    partition: Partition,
    sequence: Sequence,
) -> bool
    ensures { result ≡ commit_changes entries.now partition sequence }
{
    has_entry(entries, partition, sequence)
        && !(are_online(entries, partition, sequence) && has_next(entries, partition, sequence))
}

/// Whether the next segment has an entry.
fn has_next(entries: &[IdealEntry], partition: Partition, sequence: Sequence) -> bool
    ensures { result ≡ has_entry entries.now partition (next_sequence sequence) }
{
    for entry in entries {
        if entry.partition == partition
            && u64::from(entry.sequence.0) == u64::from(sequence.0) + 1
        {
            return true;
        }
    }
    false
}

/// Whether each entry of a segment is ONLINE.
fn are_online(entries: &[IdealEntry], partition: Partition, sequence: Sequence) -> bool
    ensures { result ≡ are_online entries.now partition sequence }
{
    entries.iter().all(|entry| {
        !(entry.partition == partition && entry.sequence == sequence) || entry.mode == Mode::Online
    })
}

/// Whether a stop changes the ideal state: the instance has a CONSUMING entry of the segment.
pub(crate) fn offline_changes(
    entries: &[IdealEntry],
    partition: Partition,
    sequence: Sequence,
    instance: Instance,
) -> bool
    ensures { result ≡ offline_changes entries.now partition sequence instance }
{
    entries.iter().any(|entry| {
        entry.partition == partition
            && entry.sequence == sequence
            && entry.instance == instance
            && entry.mode == Mode::Consuming
    })
}

/// The number of entries after the commit of a segment whose next one goes to so many instances.
pub(crate) fn committed_count(
    entries: &[IdealEntry],
    partition: Partition,
    sequence: Sequence,
    replicas: u32,
) -> u64
    ensures { result ≡ committed_count entries.now partition sequence replicas }
{
    let count = entries.len() as u64;
    if has_entry(entries, partition, sequence) && !has_next(entries, partition, sequence) {
        count + u64::from(replicas)
    } else {
        count
    }
}
