//! What is read of a state, list by list.
ghost use Rattle.std.specs.Prelude.{◌≡◌, ◌<◌, ◌++◌, length, slice_get, IfOk, OnOk, Some};
ghost use Rattle.rt_model.specs.declared.ideal_state.IdealState.{IdealState as AnIdealState};
ghost use Rattle.rt_world.specs.Reading.{ideal_in, is_ready_in, next_in, replicas_seen, seen_at};

use rt_base::{Instance, Partition, Sequence};
use rt_consumer::ReplicaDue;
use rt_lists::Items;
use rt_model::{IdealState, Key, Node, Piece};
use rt_pause::ReplicaSeen;
use rt_state::State;
use std::alloc::{AllocError, Global};

/// Whether a replica has something to consume, or its time limit has passed.
pub(crate) fn ready(
    state: &State,
    instance: Instance,
    partition: Partition,
    sequence: Sequence,
) -> bool
    requires { partition.0 < length state.now.log }
    ensures { result ≡ is_ready_in state.now instance partition sequence }
{
    match state.replica(instance, partition, sequence) {
        Some(replica) => replica.ready(state.log.size(partition), state.moment),
        None => false,
    }
}

/// What a replica has to do next.
pub(crate) fn next(
    state: &State,
    instance: Instance,
    partition: Partition,
    sequence: Sequence,
) -> Option<ReplicaDue>
    requires { partition.0 < length state.now.log }
    ensures { result ≡ next_in state.now instance partition sequence }
{
    match state.replica(instance, partition, sequence) {
        Some(replica) => replica.next(state.log.size(partition), state.moment),
        None => None,
    }
}

pub(crate) fn copied_pieces(alloc: Global, pieces: &[Piece]) -> Result<Items<Piece>, AllocError>
    ensures { IfOk result (λ copies. copies ≡ pieces.now) }
{
    let mut copies = Items::new(alloc);
    for piece in pieces {
        copies.push(*piece)?;
    }
    Ok(copies)
}

/// The replicas of the servers that are up, by instance, partition and sequence.
pub(crate) fn replicas(state: &State, alloc: Global) -> Result<Items<ReplicaSeen>, AllocError>
    ensures { IfOk result (λ seen. seen ≡ replicas_seen state.now) }
{
    let mut seen = Items::new(alloc);
    for number in 0..state.setup.servers {
        add_replicas(state, alloc, number, &mut seen)?;
    }
    Ok(seen)
}

/// Adds the replicas of the server of a number, where there is one that is up.
fn add_replicas(
    state: &State,
    alloc: Global,
    number: u32,
    seen: &mut Items<ReplicaSeen>,
) -> Result<(), AllocError>
    ensures { OnOk result (seen.new ≡ seen.old ++ seen_at number (slice_get state.now.servers number)) }
{
    match state.servers.get(number as usize) {
        Some(node) => node.add_replicas(alloc, Instance(number), seen),
        None => Ok(()),
    }
}

/// The present ideal state.
pub(crate) fn ideal(state: &State) -> &IdealState
    requires { (ideal : AnIdealState) × (ideal_in state.now ≡ Some ideal) }
    ensures { ideal_in state.now ≡ Some result.now }
{
    match state.store.value(Key::Ideal) {
        Some(seen) => match &seen.node {
            Node::Ideal(ideal) => ideal,
            Node::Meta(_) => unreachable!(),
            Node::Boot => unreachable!(),
            Node::Gone => unreachable!(),
        },
        None => unreachable!(),
    }
}
