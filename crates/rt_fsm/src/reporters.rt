ghost use Rattle.std.specs.Prelude.{◌≡◌, map, option_map, IfOk};
ghost use Rattle.rt_model.specs.Completion.{fresh, noted, left_out, all_reported, is_only_note, largest_note, smallest_at, least};

use rt_base::{Instance, Offset};
use rt_model::Reporter;
use std::alloc::{AllocError, Global};

/// The replicas, none of which has reported.
pub fn fresh(alloc: Global, replicas: &[Instance]) -> Result<Vec<Reporter>, AllocError>
    ensures { IfOk result (λ reporters. reporters.items ≡ map fresh replicas.now) }
{
    replicas
        .iter()
        .map(|instance| Reporter {
            instance: *instance,
            note: None,
            excluded: false,
        })
        .collect(alloc)
}

/// Notes what the sender reports, and ends its exclusion.
pub fn note(reporters: &mut [Reporter], sender: Instance, offset: Offset)
    ensures { reporters.new ≡ map (noted sender offset) reporters.old }
{
    for reporter in reporters.iter_mut() {
        note_at(reporter, sender, offset);
    }
}

fn note_at(reporter: &mut Reporter, sender: Instance, offset: Offset)
    ensures { reporter.new ≡ noted sender offset reporter.old }
{
    if reporter.instance == sender {
        reporter.note = Some(offset);
        reporter.excluded = false;
    }
}

/// Excludes the sender, and forgets its note.
pub fn exclude(reporters: &mut [Reporter], sender: Instance)
    ensures { reporters.new ≡ map (left_out sender) reporters.old }
{
    for reporter in reporters.iter_mut() {
        exclude_at(reporter, sender);
    }
}

fn exclude_at(reporter: &mut Reporter, sender: Instance)
    ensures { reporter.new ≡ left_out sender reporter.old }
{
    if reporter.instance == sender {
        reporter.note = None;
        reporter.excluded = true;
    }
}

/// Whether every replica that isn't excluded has a note.
pub fn all_reported(reporters: &[Reporter]) -> bool
    ensures { result ≡ all_reported reporters.now }
{
    reporters
        .iter()
        .all(|reporter| reporter.excluded || reporter.note.is_some())
}

/// Whether nobody but the sender has a note.
pub fn is_only_note(reporters: &[Reporter], sender: Instance) -> bool
    ensures { result ≡ is_only_note sender reporters.now }
{
    reporters.iter().all(|reporter| reporter.instance == sender || reporter.note.is_none())
}

/// The largest noted offset, or 0 where there is no note.
pub fn largest_note(reporters: &[Reporter]) -> Offset
    ensures { result.0 ≡ largest_note reporters.now }
{
    let mut largest = Offset(0);
    for reporter in reporters {
        if let Some(offset) = reporter.note
            && offset > largest
        {
            largest = offset;
        }
    }
    largest
}

/// The smallest instance among those whose note is the offset.
pub fn smallest_at(reporters: &[Reporter], offset: Offset) -> Option<Instance>
    ensures { option_map (λ i. i.0) result ≡ smallest_at offset.0 reporters.now }
{
    let mut smallest = None;
    for reporter in reporters {
        if reporter.note == Some(offset) {
            smallest = Some(smaller(reporter.instance, smallest));
        }
    }
    smallest
}

fn smaller(instance: Instance, other: Option<Instance>) -> Instance
    ensures { result.0 ≡ least instance.0 (option_map (λ i. i.0) other) }
{
    match other {
        Some(other) if other < instance => other,
        _ => instance,
    }
}
