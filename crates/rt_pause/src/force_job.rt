ghost use Rattle.std.specs.Prelude.{◌≡◌, ◌≤◌, ◌↔◌, length, insert, IfOk, OnOk, IfSome, IfNone};
ghost use Rattle.std.specs.List.{list_any};
ghost use Rattle.rt_lists.specs.Members.{Has};
ghost use Rattle.rt_pause.specs.Forced.{Segment, IsAscending, IsOfSome, is_before, is_in_progress, is_open, is_pending, pending_of, segments_of, with_segment};

use crate::ReplicaSeen;
use rt_base::{Partition, Sequence};
use rt_lists::Items;
use rt_model::{Listed, Status};
use std::alloc::{AllocError, Global};
use std::marker::Model;

/// The segments whose commits were forced at one time; contracts see the list of them, ascending by partition and
/// sequence. A partition has few segments that can be forced, so they are found by going over them.
#[derive(Drop)]
pub struct ForceJob {
    segments: Items<(Partition, Sequence)>,
}

impl Model for ForceJob {
    ghost use Rattle.std.specs.Prelude.{List};
    ghost use Rattle.rt_pause.specs.Forced.{Segment};

    ghost Value = { List Segment };

    ghost view = { λ a. a.segments };
}

impl ForceJob {
    /// Keeps the segments of the replicas that were forced. Fails only where memory is refused.
    #[tactic(auto, using(crate::proofs::Keeping::segments_ascend, crate::proofs::Keeping::segments_are))]
    pub fn begin(alloc: Global, forced: &[ReplicaSeen]) -> Result<ForceJob, AllocError>
        ensures segments { IfOk result (λ job. job ≡ segments_of forced.now) }
        ensures ascending { IfOk result (λ job. IsAscending job) }
        ensures each { IfOk result (λ job. (s : Segment) → Has job s ↔ IsOfSome forced.now s) }
    {
        let segments = segments_of(alloc, forced)?;
        Ok(ForceJob { segments })
    }

    /// The segments whose node is in progress in the metadata list of their partition; `nodes` has the list of each
    /// partition. Where this is empty, each segment is Done, Abandoned or retired. Fails only where memory is refused.
    pub fn pending(
        &self,
        alloc: Global,
        nodes: &[Items<Listed>],
    ) -> Result<Items<(Partition, Sequence)>, AllocError>
        ensures { IfOk result (λ pending. pending ≡ pending_of nodes.now self.now) }
    {
        let mut pending = Items::new(alloc);
        for segment in self.segments.as_slice() {
            if is_pending(nodes, segment.0, segment.1) {
                pending.push(*segment)?;
            }
        }
        Ok(pending)
    }
}

// The segments of some replicas, each once, ascending.
fn segments_of(
    alloc: Global,
    replicas: &[ReplicaSeen],
) -> Result<Items<(Partition, Sequence)>, AllocError>
    ensures { IfOk result (λ segments. segments ≡ segments_of replicas.now) }
{
    let mut segments = Vec::new(alloc);
    for replica in replicas {
        keep(&mut segments, (replica.partition, replica.sequence))?;
    }
    Ok(Items::of(segments))
}

// Puts a segment into its place, unless it is there.
fn keep(
    segments: &mut Vec<(Partition, Sequence)>,
    segment: (Partition, Sequence),
) -> Result<(), AllocError>
    ensures { OnOk result (segments.new.items ≡ with_segment segment segments.old.items) }
{
    if let Some(place) = place_of(segments.as_slice(), segment) {
        segments.insert(place, segment)?;
    }
    Ok(())
}

// The place at which a segment is to stand; None where it stands there.
fn place_of(segments: &[(Partition, Sequence)], segment: (Partition, Sequence)) -> Option<usize>
    ensures within { IfSome result (λ place. place ≤ length segments.now) }
    ensures there { IfSome result (λ place. with_segment segment segments.now ≡ insert segments.now place segment) }
    ensures none { IfNone result (with_segment segment segments.now ≡ segments.now) }
{
    for (place, other) in segments.iter().enumerate() {
        if is_before(segment, *other) {
            return Some(place);
        }
        if segment == *other {
            return None;
        }
    }
    Some(segments.len())
}

fn is_before(segment: (Partition, Sequence), other: (Partition, Sequence)) -> bool
    ensures { result ≡ is_before segment other }
{
    if segment.0 != other.0 {
        segment.0 < other.0
    } else {
        segment.1 < other.1
    }
}

fn is_pending(nodes: &[Items<Listed>], partition: Partition, sequence: Sequence) -> bool
    ensures { result ≡ is_pending nodes.now (partition, sequence) }
{
    match nodes.get(partition.0 as usize) {
        Some(listed) => has_open(listed.as_slice(), sequence),
        None => false,
    }
}

fn has_open(listed: &[Listed], sequence: Sequence) -> bool
    ensures { result ≡ list_any (is_open sequence) listed.now }
{
    for node in listed {
        if node.sequence == sequence && is_in_progress(&node.seen.meta.status) {
            return true;
        }
    }
    false
}

fn is_in_progress(status: &Status) -> bool
    ensures { result ≡ is_in_progress status.now }
{
    match status {
        Status::InProgress => true,
        Status::Done(_) | Status::Abandoned => false,
    }
}
