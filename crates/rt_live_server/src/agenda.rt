use crate::due::ServerDue;
use rt_base::{Partition, Sequence};
use rt_lists::Items;
use rt_model::ReplicaState;
use rt_server::Server;
use std::alloc::{AllocError, Global};

/// What a server looks at in its turns, so that an idle turn needn't go through all its segments. It serves the choice
/// of what to do next alone: nothing is promised of it.
#[derive(Drop)]
pub(crate) struct Agenda {
    /// Whether the server did something since it was looked through.
    stale: bool,
    first: Option<ServerDue>,
    active: Items<(Partition, Sequence)>,
}

impl Agenda {
    /// Nothing was looked through yet.
    pub(crate) fn new(alloc: Global) -> Agenda {
        Agenda {
            stale: true,
            first: None,
            active: Items::new(alloc),
        }
    }

    /// The server did something.
    pub(crate) fn outdate(&mut self) {
        self.stale = true;
    }

    /// Looks a server through, where it did something since the last time.
    pub(crate) fn refresh(&mut self, alloc: Global, server: &Server) -> Result<(), AllocError> {
        if self.stale {
            self.first = first_due(alloc, server)?;
            self.active = active_of(alloc, server)?;
            self.stale = false;
        }
        Ok(())
    }

    /// The first transition that is due, else the first file that is wanted.
    pub(crate) fn first(&self) -> Option<ServerDue> {
        self.first
    }

    /// How many replicas have something to do or to wait for.
    pub(crate) fn count(&self) -> usize {
        self.active.len()
    }

    /// The segment of such a replica; these are counted from 0, ascending.
    pub(crate) fn active(&self, place: usize) -> Option<(Partition, Sequence)> {
        self.active.as_slice().get(place).copied()
    }
}

fn first_due(alloc: Global, server: &Server) -> Result<Option<ServerDue>, AllocError> {
    let due = server.due_transits(alloc)?;
    if let Some((partition, sequence)) = due.as_slice().first() {
        return Ok(Some(ServerDue::Move {
            partition: *partition,
            sequence: *sequence,
        }));
    }
    first_wanted(alloc, server)
}

fn first_wanted(alloc: Global, server: &Server) -> Result<Option<ServerDue>, AllocError> {
    let wanted = server.wanted(alloc)?;
    match wanted.as_slice().first() {
        Some((partition, sequence)) => Ok(Some(ServerDue::Load {
            partition: *partition,
            sequence: *sequence,
        })),
        None => Ok(None),
    }
}

// The segments whose replicas aren't at their end.
fn active_of(alloc: Global, server: &Server) -> Result<Items<(Partition, Sequence)>, AllocError> {
    let held = server.held(alloc)?;
    let mut active = Items::new(alloc);
    for segment in held.as_slice() {
        let (partition, sequence) = *segment;
        if is_active(server, partition, sequence) {
            active.push((partition, sequence))?;
        }
    }
    Ok(active)
}

fn is_active(server: &Server, partition: Partition, sequence: Sequence) -> bool {
    match server.replica(partition, sequence) {
        Some(replica) => match replica.state() {
            ReplicaState::Retained | ReplicaState::Committed => false,
            ReplicaState::Discarded => replica.request_due(),
            _ => true,
        },
        None => false,
    }
}
