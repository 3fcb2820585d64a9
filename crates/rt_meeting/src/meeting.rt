use rt_base::limits::{MOST_CONTROLLERS, MOST_SERVERS};
use rt_base::{ControllerId, Gate, Instance, NodeId};
use std::alloc::{AllocError, Global};
use std::sync::atomic::{AtomicBool, AtomicU64, Ordering};
use std::thread;

/// The turn to which the broker comes before any other node begins.
const AHEAD: u64 = 1_000;

/// The turn at which the others meet. Before it no run is over that has a row: its segment takes more turns to commit.
const MEETING: u64 = 2;

/// The turn to which the others have come before the repairer goes on. By then all is answered, as a rule, so that they post
/// nothing more, and wait for the repairer, without which no run ends.
const LAST: u64 = 20_000;

/// How often one who waits looks whether the others have come.
const TRIES: u64 = 100_000_000;

/// How many nodes there are of which a cluster has one: the producer, the repairer and the broker.
const SINGLE: u32 = 3;

/// A gate at which the nodes of a cluster wait for each other, and which notes whether each comes to one turn after the other
/// by its own name. The broker goes ahead: the others begin once it has come to turn 1,000, where it waits until they have
/// come to their turn 2. There each waits until all have come, and the repairer until all others have come to turn 20,000.
#[derive(Drop)]
pub(crate) struct Meeting {
    nodes: u64,
    /// Of each node, by its place, the turn to which it comes next.
    next: Vec<AtomicU64>,
    strayed: AtomicBool,
    late: AtomicBool,
}

impl Meeting {
    /// A meeting of so many nodes. Fails only where memory is refused.
    pub(crate) fn of(alloc: Global, nodes: u64) -> Result<Meeting, AllocError> {
        let mut next = Vec::new(alloc);
        for _place in 0..SINGLE + MOST_CONTROLLERS + MOST_SERVERS {
            next.push(AtomicU64::new(0))?;
        }
        Ok(Meeting {
            nodes,
            next,
            strayed: AtomicBool::new(false),
            late: AtomicBool::new(false),
        })
    }

    /// Whether just so many nodes have come, none by another's name or out of its turn, and none gave up waiting for the
    /// others.
    pub(crate) fn was_held(&self) -> bool {
        self.came_to(0) == self.nodes
            && self.came_to(LAST) >= self.others()
            && !self.strayed.load(Ordering::SeqCst)
            && !self.late.load(Ordering::SeqCst)
    }

    // All nodes but one.
    fn others(&self) -> u64 {
        self.nodes.saturating_sub(1)
    }

    // How many nodes have come to a turn.
    fn came_to(&self, turn: u64) -> u64 {
        let mut came = 0u64;
        for next in self.next.as_slice() {
            if next.load(Ordering::SeqCst) > turn {
                came = came.saturating_add(1);
            }
        }
        came
    }

    // Notes that a node has come to a turn.
    fn come(&self, node: NodeId, turn: u64) {
        let is_next = match self.next.get(place_of(node)) {
            Some(next) => next.fetch_add(1, Ordering::SeqCst) == turn,
            None => false,
        };
        if !is_next {
            self.strayed.store(true, Ordering::SeqCst);
        }
    }

    // Waits until so many nodes have come to a turn, or gives up.
    fn wait(&self, nodes: u64, turn: u64) {
        for _try in 0..TRIES {
            if self.came_to(turn) >= nodes {
                return;
            }
            thread::yield_now();
        }
        self.late.store(true, Ordering::SeqCst);
    }
}

impl Gate for Meeting {
    fn pass(&self, node: NodeId, turn: u64) {
        self.come(node, turn);
        match (node, turn) {
            (NodeId::Broker, AHEAD) => self.wait(self.nodes, MEETING),
            (NodeId::Broker, _) => (),
            (_, 0) => self.wait(1, AHEAD),
            (NodeId::Repairer, MEETING) => self.wait(self.others(), LAST),
            (_, MEETING) => self.wait(self.nodes, MEETING),
            _ => (),
        }
    }
}

// The place of a node among all that there can be.
fn place_of(node: NodeId) -> usize {
    match node {
        NodeId::Producer => 0,
        NodeId::Repairer => 1,
        NodeId::Broker => 2,
        NodeId::Controller(ControllerId(number)) => SINGLE.saturating_add(number) as usize,
        NodeId::Server(Instance(number)) => (SINGLE + MOST_CONTROLLERS).saturating_add(
            number,
        ) as usize,
    }
}
