ghost use Rattle.std.specs.Prelude.{◌≡◌, [], ◌∷◌, ◌++◌, length, MatchResult};

use crate::envelope::Envelope;
use crate::forever::never;
use crate::full::Full;
use crate::rule::{Line, Posts, Sent, Ticket};
use std::alloc::Global;
use std::marker::Model;
use std::sync::{Arc, Wait};

/// The end of a sender. Contracts see it as its link, the queue's capacity, the sender's number, and what was accepted of
/// it.
#[derive(Drop)]
pub struct Post {
    pub(crate) line: Arc<Line, Global>,
    pub(crate) ticket: Ticket,
    pub(crate) from: u32,
    pub(crate) count: u64,
}

impl Model for Post {
    ghost use Rattle.rt_link.specs.Ends.{Sending};

    ghost Value = { Sending };

    ghost use Rattle.std.specs.Arc.{arc_value};
    ghost use Rattle.crossbeam_queue.specs.Passes.{ruled_capacity};
    ghost use Rattle.rt_link.specs.Ends.{sending_by, IsSender};

    ghost view = { λ p. sending_by (ruled_capacity (arc_value p.line)) p.ticket };

    ghost invariant = { λ p. IsSender (arc_value p.line) p.ticket p.from p.count };
}

impl Post {
    /// Offers an envelope. Where the queue was full at some moment of the call, it comes back.
    pub fn post<R: Wait>(&mut self, rt: &R, envelope: Envelope) -> Result<(), (Envelope, Full)>
        ensures { MatchResult result
            (λ _. self.new ≡ record self.old { accepted = self.old.accepted ++ envelope ∷ [] })
            (λ e. (e.0 ≡ envelope) × (self.new ≡ self.old)) }
    {
        if self.count == u64::MAX {
            return never(rt);
        }
        let sent = Sent {
            sender: self.from,
            envelope,
        };
        match self.line.push_as::<Posts, R>(rt, &mut self.ticket, sent) {
            Ok(()) => {
                self.count += 1;
                Ok(())
            }
            Err(sent) => Err((sent.envelope, Full)),
        }
    }

    /// How many envelopes were accepted of this sender.
    pub fn accepted(&self) -> u64
        ensures { result ≡ length self.now.accepted }
    {
        self.count
    }
}
