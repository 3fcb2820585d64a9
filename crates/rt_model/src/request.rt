ghost use Rattle.std.specs.Prelude.{◌≡◌, ◌↔◌, IsTrue};
ghost use Rattle.rt_model.specs.Messages.{asked_of, same_number};

use crate::Asked;
use rt_base::{Instance, Offset, Partition, Sequence};
use rt_lists::{Bytes, Text};

/// The number of a request: who sent it, in which of its lives, and its place among that life's requests.
#[derive(Clone, Copy, Debug, PartialEq, Eq)]
pub struct RequestNumber {
    pub instance: Instance,
    pub incarnation: u64,
    pub count: u64,
}

impl RequestNumber {
    /// Whether this is that number.
    pub fn is(self, other: RequestNumber) -> bool
        ensures same { result ≡ same_number self other }
        ensures one { IsTrue result ↔ (self ≡ other) }
    {
        self == other
    }
}

/// Why a replica stopped to consume.
#[derive(Clone, Copy, Debug, PartialEq, Eq)]
pub enum Reason {
    RowLimit,
    TimeLimit,
    Force,
}

/// What a replica asks of the controller.
#[derive(Drop, PartialEq, Eq)]
pub enum RequestKind {
    Consumed(Reason),
    Stopped,
    CommitStart,
    Upload { path: Text, bytes: Bytes },
    CommitEnd { path: Text },
    /// More time for the build, in milliseconds.
    Extend { millis: u64 },
}

/// A message from a replica to a controller.
#[derive(Drop, PartialEq, Eq)]
pub struct Request {
    pub number: RequestNumber,
    pub partition: Partition,
    pub sequence: Sequence,
    /// How far the sender has consumed.
    pub offset: Offset,
    pub kind: RequestKind,
}

impl Request {
    /// What an answer to it says of it.
    pub fn asked(&self) -> Asked
        ensures { result ≡ asked_of self.now }
    {
        Asked {
            number: self.number,
            partition: self.partition,
            sequence: self.sequence,
        }
    }
}
