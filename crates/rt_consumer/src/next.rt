ghost use Rattle.std.specs.Prelude.{◌≡◌};
ghost use Rattle.rt_consumer.specs.Next.{next_of, takes_in};

use crate::Consumer;
use rt_base::{Moment, Offset};
use rt_model::ReplicaState;

/// What a replica has to do next.
#[derive(Clone, Copy, Debug, PartialEq, Eq)]
pub enum ReplicaDue {
    Consume,
    Build,
    Ask,
}

impl Consumer {
    /// What the replica has to do next, over a log of this length; None where it has to wait. Takes no memory.
    pub fn next(&self, length: Offset, now: Moment) -> Option<ReplicaDue>
        ensures { result ≡ next_of self.now length now }
    {
        if takes_messages(self.phase.state()) {
            if self.ready(length, now) {
                Some(ReplicaDue::Consume)
            } else {
                None
            }
        } else if self.build_due() {
            Some(ReplicaDue::Build)
        } else if self.request_due() {
            Some(ReplicaDue::Ask)
        } else {
            None
        }
    }
}

/// Whether a replica in this state takes messages: it builds and asks nothing yet.
pub fn takes_messages(state: ReplicaState) -> bool
    ensures { result ≡ takes_in state }
{
    match state {
        ReplicaState::InitialConsuming => true,
        ReplicaState::CatchingUp => true,
        ReplicaState::ConsumingToOnline => true,
        ReplicaState::Holding => false,
        ReplicaState::Retaining => false,
        ReplicaState::Retained => false,
        ReplicaState::Committing => false,
        ReplicaState::Committed => false,
        ReplicaState::Discarded => false,
    }
}
