//! Whether a new ideal state has the targets that were seen before.
ghost use Rattle.std.specs.Prelude.{◌≡◌, IsTrue};
ghost use Rattle.rt_server.specs.Calls.{targets_of};
ghost use Rattle.std.specs.BTreeMap.{IsOrdered};
ghost use Rattle.rt_server.specs.Seen.{after, after_first, are_seen, is_asked, is_first, keeps, same_mode};
ghost use Rattle.rt_server.specs.Table.{segment_cmp};

use rt_base::{Instance, Partition, Sequence};
use rt_model::{IdealEntry, Mode};
use std::collections::BTreeMap;
use std::collections::btree_map::Iter;

/// Whether the targets of an instance are just those that were seen. False also where they are, but stand in another order
/// among the entries. Takes no memory.
#[tactic(auto, using(crate::proofs::Targets::seen_by))]
pub(crate) fn are_targets(
    modes: &BTreeMap<(Partition, Sequence), Mode>,
    instance: Instance,
    entries: &[IdealEntry],
) -> bool
    ensures { IsTrue result → targets_of instance entries.now ≡ modes.now.entries }
{
    are_seen(modes, instance, entries)
}

/// Whether the entries of an instance, in order, are just some targets.
fn are_seen(
    modes: &BTreeMap<(Partition, Sequence), Mode>,
    instance: Instance,
    entries: &[IdealEntry],
) -> bool
    ensures seen { result ≡ are_seen instance entries.now modes.now.entries }
    ensures ordered { IsOrdered segment_cmp modes.now }
{
    let mut left = modes.iter();
    let mut place = 0;
    while place < entries.len() {
        if !keeps(&mut left, instance, &entries[place]) {
            return false;
        }
        place += 1;
    }
    left.next().is_none()
}

/// Takes the first of some targets for an entry of an instance, and tells whether the entry asks for it; an entry of
/// another instance takes none.
fn keeps(
    left: &mut Iter<'_, (Partition, Sequence), Mode>,
    instance: Instance,
    entry: &IdealEntry,
) -> bool
    ensures asked { result ≡ keeps instance entry.now left.old }
    ensures later { left.new ≡ after instance entry.now left.old }
{
    if entry.instance == instance {
        takes(left, entry)
    } else {
        true
    }
}

/// Takes the first of some targets, and tells whether an entry asks for it.
fn takes(left: &mut Iter<'_, (Partition, Sequence), Mode>, entry: &IdealEntry) -> bool
    ensures asked { result ≡ is_first entry.now left.old }
    ensures later { left.new ≡ after_first left.old }
{
    match left.next() {
        Some((segment, mode)) => is_asked(entry, segment, *mode),
        None => false,
    }
}

/// Whether an entry asks a mode of a segment.
fn is_asked(entry: &IdealEntry, segment: &(Partition, Sequence), mode: Mode) -> bool
    ensures { result ≡ is_asked entry.now segment.now mode }
{
    entry.partition == segment.0 && entry.sequence == segment.1 && same_mode(entry.mode, mode)
}

fn same_mode(a: Mode, b: Mode) -> bool
    ensures { result ≡ same_mode a b }
{
    match (a, b) {
        (Mode::Consuming, Mode::Consuming) => true,
        (Mode::Online, Mode::Online) => true,
        (Mode::Offline, Mode::Offline) => true,
        _ => false,
    }
}
