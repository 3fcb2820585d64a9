ghost use Rattle.std.specs.Prelude.{◌≡◌};
ghost use Rattle.rt_model.specs.Ideal.{is_of, has_entry, has_partition, mode_of};

use rt_base::{Instance, Partition, Sequence};
use rt_model::{IdealEntry, IdealState, Mode};

/// The mode in which an instance is asked to have a segment, where it has an entry for it.
pub fn mode(
    state: &IdealState,
    partition: Partition,
    sequence: Sequence,
    instance: Instance,
) -> Option<Mode>
    ensures { result ≡ mode_of state.now.entries partition sequence instance }
{
    for entry in state.entries.as_slice() {
        if is_of(entry, partition, sequence) && entry.instance == instance {
            return Some(entry.mode);
        }
    }
    None
}

/// Whether an entry is one of a segment's.
pub(crate) fn is_of(entry: &IdealEntry, partition: Partition, sequence: Sequence) -> bool
    ensures { result ≡ is_of partition sequence entry.now }
{
    entry.partition == partition && entry.sequence == sequence
}

/// Whether a segment has an entry.
pub fn has_entry(entries: &[IdealEntry], partition: Partition, sequence: Sequence) -> bool
    ensures { result ≡ has_entry entries.now partition sequence }
{
    for entry in entries {
        if is_of(entry, partition, sequence) {
            return true;
        }
    }
    false
}

/// Whether a partition has an entry.
pub(crate) fn has_partition(entries: &[IdealEntry], partition: Partition) -> bool
    ensures { result ≡ has_partition entries.now partition }
{
    for entry in entries {
        if entry.partition == partition {
            return true;
        }
    }
    false
}
