use crate::{Reply, Request};

/// A message between a replica and a controller.
#[derive(Drop, PartialEq, Eq)]
pub enum Sent {
    Request(Request),
    Reply(Reply),
}
