ghost use Rattle.std.specs.Prelude.{◌≡◌, ◌≤◌, ◌<◌, length, OnOk, OnErr, insert};
ghost use Rattle.rt_model.specs.Ideal.{is_before, with_entry, with_consuming};

use rt_base::{Instance, Partition, Sequence};
use rt_model::{IdealEntry, Mode};
use std::alloc::AllocError;

/// Whether an entry comes before another: by partition, then sequence, then instance.
fn is_before(entry: &IdealEntry, other: &IdealEntry) -> bool
    ensures { result ≡ is_before entry.now other.now }
{
    if entry.partition != other.partition {
        entry.partition < other.partition
    } else if entry.sequence != other.sequence {
        entry.sequence < other.sequence
    } else {
        entry.instance < other.instance
    }
}

/// The place of a new entry: that of the first entry that comes after it.
fn place_of(entries: &[IdealEntry], entry: &IdealEntry) -> usize
    ensures within { result ≤ length entries.now }
    ensures there { with_entry entry.now entries.now ≡ insert entries.now result entry.now }
{
    for (place, other) in entries.iter().enumerate() {
        if is_before(entry, other) {
            return place;
        }
    }
    entries.len()
}

/// Adds a segment's entries, CONSUMING on these instances, each in its place. Where memory runs out, the entries are
/// as before.
#[tactic(auto, using(crate::proofs::Added::with_consuming_last))]
pub fn add_segment(
    entries: &mut Vec<IdealEntry>,
    partition: Partition,
    sequence: Sequence,
    instances: &[Instance],
) -> Result<(), AllocError>
    ensures added { OnOk result
        (entries.new.items ≡ with_consuming entries.old.items partition sequence instances.now) }
    ensures err { OnErr result (entries.new.items ≡ entries.old.items) }
{
    entries.reserve(instances.len())?;
    for instance in instances.iter().rev() {
        let entry = IdealEntry {
            partition,
            sequence,
            instance: *instance,
            mode: Mode::Consuming,
        };
        let place = place_of(entries.as_slice(), &entry);
        entries.insert(place, entry).unwrap();
    }
    Ok(())
}
