ghost use Rattle.std.specs.Prelude.{◌≡◌, ◌<◌, map, IfOk};
ghost use Rattle.rt_model.specs.Ideal.{
  commit_step_of,
  add_consuming_of,
  set_offline_of,
  remove_segment_of,
  goes_on,
  turned_online,
  turned_offline,
};

use crate::lookup::{has_entry, has_partition, is_of};
use crate::places::add_segment;
use rt_base::{Instance, Partition, Sequence};
use rt_lists::{Copied, Items};
use rt_model::{IdealEntry, IdealState, Mode};
use std::alloc::{AllocError, Global};

/// The state after a segment is committed: its entries are ONLINE, and the next segment is CONSUMING on the
/// instances `next` unless it has an entry already. A segment without an entry changes nothing.
pub fn commit_step(
    alloc: Global,
    state: &IdealState,
    partition: Partition,
    sequence: Sequence,
    next: &[Instance],
) -> Result<IdealState, AllocError>
    requires { sequence.0 < 4294967295 }
    ensures { IfOk result
        (λ after. after.entries ≡ commit_step_of state.now.entries partition sequence next.now) }
{
    let entries = state.entries.as_slice();
    if !has_entry(entries, partition, sequence) {
        return state.copied(alloc);
    }
    let following = Sequence(sequence.0 + 1);
    let mut after = turned_online(alloc, entries, partition, sequence, next.len())?;
    if !has_entry(entries, partition, following) {
        add_segment(&mut after, partition, following, next)?;
    }
    Ok(IdealState {
        entries: Items::of(after),
    })
}

/// The state with a segment CONSUMING on these instances, where the segment has no entry and comes next in its
/// partition: the sequence before it has an entry, or it is sequence 0 and the partition has none. Otherwise
/// nothing changes.
pub fn add_consuming(
    alloc: Global,
    state: &IdealState,
    partition: Partition,
    sequence: Sequence,
    instances: &[Instance],
) -> Result<IdealState, AllocError>
    ensures { IfOk result
        (λ after. after.entries ≡ add_consuming_of state.now.entries partition sequence instances.now) }
{
    let entries = state.entries.as_slice();
    let mut after = entries.to_vec(alloc)?;
    if !has_entry(entries, partition, sequence) && comes_next(entries, partition, sequence) {
        add_segment(&mut after, partition, sequence, instances)?;
    }
    Ok(IdealState {
        entries: Items::of(after),
    })
}

/// The state after an instance stopped consuming a segment: a CONSUMING entry is OFFLINE, and nothing else changes.
pub fn set_offline(
    alloc: Global,
    state: &IdealState,
    partition: Partition,
    sequence: Sequence,
    instance: Instance,
) -> Result<IdealState, AllocError>
    ensures { IfOk result
        (λ after. after.entries ≡ set_offline_of state.now.entries partition sequence instance) }
{
    let entries = state.entries.as_slice();
    let mut after = Vec::with_capacity(alloc, entries.len())?;
    for entry in entries {
        after.push(offline_entry(*entry, partition, sequence, instance))?;
    }
    Ok(IdealState {
        entries: Items::of(after),
    })
}

/// The state without a segment's entries.
pub fn remove_segment(
    alloc: Global,
    state: &IdealState,
    partition: Partition,
    sequence: Sequence,
) -> Result<IdealState, AllocError>
    ensures { IfOk result
        (λ after. after.entries ≡ remove_segment_of state.now.entries partition sequence) }
{
    let mut after = Vec::new(alloc);
    for entry in state.entries.as_slice() {
        if !is_of(entry, partition, sequence) {
            after.push(*entry)?;
        }
    }
    Ok(IdealState {
        entries: Items::of(after),
    })
}

/// The entries with a segment's turned ONLINE, and room for some more.
fn turned_online(
    alloc: Global,
    entries: &[IdealEntry],
    partition: Partition,
    sequence: Sequence,
    room: usize,
) -> Result<Vec<IdealEntry>, AllocError>
    ensures { IfOk result
        (λ after. after.items ≡ map (turned_online partition sequence) entries.now) }
{
    let mut after = Vec::with_capacity(alloc, entries.len().saturating_add(room))?;
    for entry in entries {
        after.push(online_entry(*entry, partition, sequence))?;
    }
    Ok(after)
}

/// An entry after its segment is committed.
fn online_entry(entry: IdealEntry, partition: Partition, sequence: Sequence) -> IdealEntry
    ensures { result ≡ turned_online partition sequence entry }
{
    if is_of(&entry, partition, sequence) {
        IdealEntry {
            mode: Mode::Online,
            ..entry
        }
    } else {
        entry
    }
}

/// An entry after its instance stopped.
fn offline_entry(
    entry: IdealEntry,
    partition: Partition,
    sequence: Sequence,
    instance: Instance,
) -> IdealEntry
    ensures { result ≡ turned_offline partition sequence instance entry }
{
    if is_of(&entry, partition, sequence)
        && entry.instance == instance
        && entry.mode == Mode::Consuming
    {
        IdealEntry {
            mode: Mode::Offline,
            ..entry
        }
    } else {
        entry
    }
}

/// Whether a sequence follows the entries of its partition: the one before it has an entry, or it is sequence 0 and
/// the partition has none.
pub fn comes_next(entries: &[IdealEntry], partition: Partition, sequence: Sequence) -> bool
    ensures { result ≡ goes_on entries.now partition sequence.0 }
{
    if sequence.0 == 0 {
        !has_partition(entries, partition)
    } else {
        has_entry(entries, partition, Sequence(sequence.0 - 1))
    }
}
