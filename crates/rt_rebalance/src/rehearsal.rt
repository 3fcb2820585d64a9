ghost use Rattle.std.specs.Prelude.{◌≡◌, ◌<◌, ◌≤◌, ◌+◌, length, slice_get, Some, None, IfOk, IfSome, IfNone};
ghost use Rattle.std.specs.List.{remove};
ghost use Rattle.rt_model.specs.Ideal.{is_of_instance};
ghost use Rattle.rt_rebalance.specs.Rehearsed.{Steps, coming, entries_at, is_online_at, is_online_mode, loaded, not_loaded, start_of, without};

use crate::segments::is_online;
use crate::{RebalanceRefused, Replicas};
use rt_base::{Instance, Partition, Sequence};
use rt_ideal::mode;
use rt_lists::Items;
use rt_model::{IdealEntry, IdealState, Mode};
use std::alloc::{AllocError, Global};
use std::marker::Model;

/// A plan that is gone through state by state, each only after the instances that came with the last one have loaded
/// their segments. The instances of the first state have.
#[derive(Drop)]
pub struct Rehearsal {
    alloc: Global,
    states: Items<IdealState>,
    at: usize,
    waiting: Vec<IdealEntry>,
}

impl Model for Rehearsal {
    ghost use Rattle.std.specs.Prelude.{◌≤◌, length};
    ghost use Rattle.rt_rebalance.specs.Rehearsed.{Rehearsed};

    ghost Value = { Rehearsed };

    ghost view = { λ a. record { states = a.states; at = a.at; waiting = a.waiting.items } };

    ghost invariant = { λ a. a.at ≤ length a.states };
}

impl Rehearsal {
    /// Begins at the first state of a plan. It takes no memory yet.
    pub fn begin(alloc: Global, states: Items<IdealState>) -> Rehearsal
        ensures { result ≡ start_of states }
    {
        Rehearsal {
            alloc,
            states,
            at: 0,
            waiting: Vec::new(alloc),
        }
    }

    /// An instance has loaded a segment. It counts, and is answered, exactly where it is ONLINE there in the present state.
    pub fn loaded(&mut self, partition: Partition, sequence: Sequence, instance: Instance) -> bool
        ensures answer { result ≡ is_online_at self.old partition sequence instance }
        ensures counts { self.new ≡ loaded partition sequence instance self.old }
    {
        if !self.is_online(partition, sequence, instance) {
            return false;
        }
        take_out(&mut self.waiting, partition, sequence, instance);
        true
    }

    /// Goes on to the next state and gives its number; the first has 0. It is refused at the last state, else by the first
    /// instance that is ONLINE in the present state and hasn't loaded its segment. After a refusal all is as before.
    pub fn step(&mut self) -> Result<usize, RebalanceRefused>
        ensures { Steps self.old self.new result }
    {
        let Some(next) = next_state(self.states.as_slice(), self.at) else {
            return Err(RebalanceRefused::Ended);
        };
        if let Some(first) = self.waiting.first() {
            return Err(not_loaded(first));
        }
        let waiting = coming(
            self.alloc,
            present(&self.states, self.at),
            next.entries.as_slice(),
        )?;
        self.waiting = waiting;
        self.at += 1;
        Ok(self.at)
    }

    fn is_online(&self, partition: Partition, sequence: Sequence, instance: Instance) -> bool
        ensures { result ≡ is_online_at self.now partition sequence instance }
    {
        match self.states.get(self.at) {
            Some(state) => is_online_mode(mode(state, partition, sequence, instance)),
            None => false,
        }
    }
}

// The state behind one, where there is one.
#[tactic(auto, using(crate::proofs::Ends::next_within))]
fn next_state(states: &[IdealState], at: usize) -> Option<&IdealState>
    requires { at ≤ length states.now }
    ensures some { IfSome result (λ next. slice_get states.now (at + 1) ≡ Some next.now) }
    ensures within { IfSome result (λ next. at + 1 ≤ length states.now) }
    ensures small { IfSome result (λ next. at + 1 < 9223372036854775808) }
    ensures none { IfNone result (slice_get states.now (at + 1) ≡ None) }
{
    states.get(at + 1)
}

fn not_loaded(entry: &IdealEntry) -> RebalanceRefused
    ensures { result ≡ not_loaded entry.now }
{
    RebalanceRefused::NotLoaded(entry.partition, entry.sequence, entry.instance)
}

// The entries of a state of a list.
fn present(states: &Items<IdealState>, at: usize) -> &[IdealEntry]
    ensures { result.now ≡ entries_at states.now at }
{
    match states.get(at) {
        Some(state) => state.entries.as_slice(),
        None => &[],
    }
}

fn is_online_mode(mode: Option<Mode>) -> bool
    ensures { result ≡ is_online_mode mode }
{
    match mode {
        Some(mode) => is_online(mode),
        None => false,
    }
}

// The ONLINE entries of a state that the state before doesn't have.
fn coming(
    alloc: Global,
    old: &[IdealEntry],
    new: &[IdealEntry],
) -> Result<Vec<IdealEntry>, AllocError>
    ensures { IfOk result (λ entries. entries.items ≡ coming old.now new.now) }
{
    let had = Replicas::of(alloc, old)?;
    let mut coming = Vec::new(alloc);
    for entry in new {
        let is_new = !had.has(entry.partition, entry.sequence, entry.instance);
        if is_online(entry.mode) && is_new {
            coming.push(*entry)?;
        }
    }
    Ok(coming)
}

fn is_of_instance(
    entry: &IdealEntry,
    partition: Partition,
    sequence: Sequence,
    instance: Instance,
) -> bool
    ensures { result ≡ is_of_instance partition sequence instance entry.now }
{
    entry.partition == partition && entry.sequence == sequence && entry.instance == instance
}

// Takes out the first entry of an instance and a segment.
fn take_out(
    waiting: &mut Vec<IdealEntry>,
    partition: Partition,
    sequence: Sequence,
    instance: Instance,
)
    ensures { waiting.new.items ≡ without partition sequence instance waiting.old.items }
{
    if let Some(place) = place_in(waiting.as_slice(), partition, sequence, instance) {
        waiting.remove(place);
    }
}

fn place_in(
    entries: &[IdealEntry],
    partition: Partition,
    sequence: Sequence,
    instance: Instance,
) -> Option<usize>
    ensures within { IfSome result (λ place. place < length entries.now) }
    ensures there { IfSome result (λ place. without partition sequence instance entries.now ≡ remove entries.now place) }
    ensures none { IfNone result (without partition sequence instance entries.now ≡ entries.now) }
{
    for (place, entry) in entries.iter().enumerate() {
        if is_of_instance(entry, partition, sequence, instance) {
            return Some(place);
        }
    }
    None
}
