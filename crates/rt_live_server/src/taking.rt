//! A server takes what comes to its inbox.
ghost use Rattle.std.specs.Prelude.{◌≡◌, ◌<◌, ◌-◌, ◌^◌, true, [], ◌∷◌, length};
ghost use Rattle.rt_live_server.specs.Acting.{Adds};
ghost use Rattle.rt_live_server.specs.Steps.{PassesBy};
ghost use Rattle.rt_live_server.specs.declared.did.ServerDid.TheVariants.{Took};
ghost use Rattle.rt_link.specs.declared.envelope.Envelope.TheVariants.{Replies};
ghost use Rattle.rt_model.specs.declared.reply.Reply.{Reply as Answer};
ghost use Rattle.rt_server.specs.Calls.{InTable, replied_in};

use crate::acting::Acting;
use crate::did::ServerDid;
use rt_base::{Partition, Sequence};
use rt_ground::Naming;
use rt_link::Envelope;
use rt_live_names::Cluster;
use rt_model::Reply;
use rt_server::Server;

impl<R, J: Naming, K: Cluster> Acting<R, J, K> {
    /// Takes an envelope: a server that is up hands a reply to its replica. Answers the segment whose replica waited
    /// for it.
    pub(crate) fn take_in(&mut self, envelope: Envelope) -> Option<(Partition, Sequence)>
        requires { length self.old.did < 2 ^ 64 - 1 }
        ensures { Adds self.old self.new (envelope ∷ []) [] [] }
    {
        match envelope {
            Envelope::Replies(reply) => self.take_reply(reply),
            Envelope::Asks(request) => self.pass(Envelope::Asks(request)),
        }
    }

    fn take_reply(&mut self, reply: Reply) -> Option<(Partition, Sequence)>
        requires { length self.old.did < 2 ^ 64 - 1 }
        ensures { Adds self.old self.new (Replies reply ∷ []) [] [] }
    {
        if !self.up {
            return self.pass(Envelope::Replies(reply));
        }
        let segment = (reply.partition, reply.sequence);
        if self.hand(reply) {
            Some(segment)
        } else {
            None
        }
    }

    // Hands a reply to its replica, and tells whether that waited for it.
    fn hand(&mut self, reply: Reply) -> bool
        requires room { length self.old.did < 2 ^ 64 - 1 }
        requires up { self.old.up ≡ true }
        ensures { Adds self.old self.new (Replies reply ∷ []) [] [] }
    {
        let did = ServerDid::Took { reply };
        self.diary.note(&did);
        hand_on(&mut self.server, did)
    }

    // Notes an envelope that is for no replica of a server that is up.
    fn pass(&mut self, envelope: Envelope) -> Option<(Partition, Sequence)>
        requires room { length self.old.did < 2 ^ 64 - 1 }
        requires passes { PassesBy self.old.up envelope }
        ensures { Adds self.old self.new (envelope ∷ []) [] [] }
    {
        ServerDid::Passed { envelope }.note(&mut self.diary);
        None
    }
}

/// Hands the reply that was noted on to its replica.
fn hand_on(server: &mut Server, did: ServerDid) -> bool
    ensures { (reply : Answer) → did ≡ Took reply
        → ((result, server.new.table) ≡ replied_in server.old.table reply) × InTable server.old server.new }
{
    match did {
        ServerDid::Took { reply } => server.on_reply(reply),
        _other => false,
    }
}
