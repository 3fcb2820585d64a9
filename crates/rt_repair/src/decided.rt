ghost use Rattle.std.specs.Prelude.{◌≡◌};
ghost use Rattle.rt_model.specs.Repair.{decide, decide_open, are_offline};
ghost use Rattle.rt_repair.specs.Decided.{decide_at};

use rt_base::limits::LAST_NUMBER;
use rt_base::{Moment, Offset, Partition, Sequence};
use rt_ideal::has_entry;
use rt_model::{Decision, IdealEntry, IdealState, Listed, Mode, SegMeta, Status};

/// What a repair of the partition does, by the metadata and the ideal state that it read, the moment and the grace in
/// milliseconds. Takes no memory.
#[tactic(auto, using(crate::proofs::Lists::last_is))]
pub fn decide(
    nodes: &[Listed],
    partition: Partition,
    ideal: &IdealState,
    now: Moment,
    grace: u64,
) -> Decision
    ensures { result ≡ decide nodes.now partition ideal.now.entries now grace }
{
    let Some(last) = nodes.last() else {
        return Decision::Create(Sequence(0), Offset(0));
    };
    let entries = ideal.entries.as_slice();
    decide_on(
        last.sequence,
        &last.seen.meta,
        partition,
        entries,
        now,
        grace,
    )
}

/// What is decided by the last node.
pub(crate) fn decide_on(
    sequence: Sequence,
    meta: &SegMeta,
    partition: Partition,
    entries: &[IdealEntry],
    now: Moment,
    grace: u64,
) -> Decision
    ensures { result ≡ decide_at partition sequence meta.now entries.now now grace }
{
    if sequence.0 >= LAST_NUMBER {
        return Decision::Nothing;
    }
    if now.0 < meta.written.0.saturating_add(grace) {
        return Decision::Nothing;
    }
    match &meta.status {
        Status::InProgress => decide_open(partition, sequence, entries),
        Status::Done(commit) => Decision::Create(Sequence(sequence.0 + 1), commit.end),
        Status::Abandoned => Decision::Create(Sequence(sequence.0 + 1), meta.start),
    }
}

/// What is decided of a last segment in progress.
fn decide_open(partition: Partition, sequence: Sequence, entries: &[IdealEntry]) -> Decision
    ensures { result ≡ decide_open partition sequence entries.now }
{
    if !has_entry(entries, partition, sequence) {
        return Decision::AddToIdeal(sequence);
    }
    if are_offline(entries, partition, sequence) {
        Decision::Abandon(sequence)
    } else {
        Decision::Nothing
    }
}

/// Whether all entries of a segment are OFFLINE.
fn are_offline(entries: &[IdealEntry], partition: Partition, sequence: Sequence) -> bool
    ensures { result ≡ are_offline entries.now partition sequence }
{
    for entry in entries {
        let is_of = entry.partition == partition && entry.sequence == sequence;
        if is_of && entry.mode != Mode::Offline {
            return false;
        }
    }
    true
}
