//! A server takes a reply.
ghost use Rattle.std.specs.Prelude.{◌≡◌};
ghost use Rattle.rt_nodes.specs.Messages.{node_took};

use crate::ServerNode;
use rt_events::Outcome;
use rt_model::Reply;

impl ServerNode {
    /// Hands a reply to the replica that it is for, and says in which state that is then, or that no replica took it.
    #[tactic(auto, using(crate::proofs::Taking::took_is))]
    pub fn take_reply(&mut self, reply: Reply) -> Outcome
        ensures { (result, self.new) ≡ node_took self.old reply }
    {
        let instance = reply.number.instance;
        let (partition, sequence) = (reply.partition, reply.sequence);
        if !self.server.on_reply(reply) {
            return Outcome::Ignored;
        }
        match self.server.replica(partition, sequence) {
            Some(replica) => Outcome::Took {
                instance,
                partition,
                sequence,
                state: replica.state(),
            },
            None => Outcome::Ignored,
        }
    }
}
