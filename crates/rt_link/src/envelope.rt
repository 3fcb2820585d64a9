use rt_model::{Reply, Request};

/// A message between two nodes.
#[derive(Drop, PartialEq, Eq)]
pub enum Envelope {
    /// From a replica to a controller.
    Asks(Request),
    /// From a controller to a replica.
    Replies(Reply),
}
