ghost use Rattle.std.specs.Prelude.{ℕ, ◌≡◌, ◌+◌, ◌<◌, [], ◌∷◌, ◌++◌, length, slice_set, slice_index_or, MatchOption};
ghost use Rattle.rt_link.specs.Delivery.{of, sent, account, TookInOrder, TookOfSenders};
ghost use Rattle.rt_link.specs.Ends.{WasDrained};

use crate::envelope::Envelope;
use crate::forever::never;
use crate::post::Post;
use crate::rule::{Gathers, Line, Sent, Takes, Ticket};
use std::alloc::Global;
use std::marker::Model;
use std::sync::{Arc, Wait};

/// The end of an owner. Contracts see it as its link, the queue's capacity, the number of senders, what was taken, and
/// the accounts of the senders that were gathered.
#[derive(Drop)]
pub struct Inbox {
    pub(crate) line: Arc<Line, Global>,
    pub(crate) ticket: Ticket,
    /// How many envelopes were taken of each sender.
    pub(crate) counts: Vec<u64>,
}

impl Model for Inbox {
    ghost use Rattle.rt_link.specs.Ends.{Taking};

    ghost Value = { Taking };

    ghost use Rattle.std.specs.Arc.{arc_value};
    ghost use Rattle.crossbeam_queue.specs.Passes.{ruled_capacity};
    ghost use Rattle.rt_link.specs.Ends.{taking_by, IsOwner};

    ghost view = { λ i. taking_by (ruled_capacity (arc_value i.line)) i.ticket };

    ghost invariant = { λ i. IsOwner (arc_value i.line) i.ticket i.counts.items };
}

impl Inbox {
    /// Takes the envelope that has been queued longest. Where the queue was empty at some moment of the call there is
    /// none, and all that was accepted of the gathered senders was taken.
    pub fn take<R: Wait>(&mut self, rt: &R) -> Option<Envelope>
        ensures { MatchOption result
            ((self.new ≡ self.old) × WasDrained self.old.taken self.old.gathered)
            (λ e. (p : ℕ) × (p < self.old.made)
            × (self.new ≡ record self.old { taken = self.old.taken ++ sent p e ∷ [] })) }
    {
        let Sent { sender, envelope } = self.line.pop_as::<Takes, R>(rt, &mut self.ticket)?;
        count_one(rt, &mut self.counts, sender as usize);
        Some(envelope)
    }

    /// How many envelopes of a sender were taken.
    pub fn taken(&self, sender: u32) -> u64
        ensures { result ≡ length (of sender self.now.taken) }
    {
        match self.counts.get(sender as usize) {
            Some(count) => *count,
            None => 0,
        }
    }

    /// Takes in the post of a sender that has ended. What was taken of each gathered sender is a beginning of what was
    /// accepted of it.
    pub fn gather(&mut self, post: Post)
        requires { post.line ≡ self.old.line }
        ensures new { self.new ≡ record self.old {
          gathered = self.old.gathered ++ account post.from post.accepted ∷ [];
        } }
        ensures order { TookInOrder self.new.taken self.new.gathered }
        ensures senders { TookOfSenders self.new.made self.new.taken }
    {
        let Post {
            line: _,
            ticket,
            from: _,
            count: _,
        } = post;
        self.line.absorb::<Gathers>(&mut self.ticket, ticket);
        self.line.learn_as::<Takes>(&mut self.ticket);
    }
}

/// Counts an envelope more of a sender.
fn count_one<R: Wait>(rt: &R, counts: &mut Vec<u64>, sender: usize)
    requires { sender < length counts.old.items }
    ensures { counts.new.items ≡ slice_set counts.old.items sender (slice_index_or counts.old.items sender 0 + 1) }
{
    if counts[sender] == u64::MAX {
        return never(rt);
    }
    counts[sender] += 1;
}
