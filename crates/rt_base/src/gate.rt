use crate::{ControllerId, Instance};

/// A node of a running cluster.
#[derive(Clone, Copy, Debug, PartialEq, Eq)]
pub enum NodeId {
    Server(Instance),
    Controller(ControllerId),
    Repairer,
    Broker,
    Producer,
}

/// What each node of a running cluster passes before each of its turns. An implementation may wait
/// there, by a handle that it keeps, and so choose an order of the turns.
pub trait Gate {
    fn pass(&self, node: NodeId, turn: u64);
}
