//! What a replica asks of the controller.
ghost use Rattle.std.specs.Prelude.{◌≡◌, ◌<◌, ◌^◌, true, IfOk, OnErr};
ghost use Rattle.rt_server.specs.Table.{replica_of};
ghost use Rattle.rt_nodes.specs.Replicas.{passes};
ghost use Rattle.rt_nodes.specs.Requests.{asks_due, extends_now, NodeAsks, NodeAsksFor};

use crate::ServerNode;
use crate::replicas::out_of_memory;
use rt_base::{Partition, Sequence};
use rt_model::Request;
use std::alloc::{AllocError, Global};

impl ServerNode {
    /// The request of a replica that has one to make. Fails only where memory is refused; the node is then as it was.
    #[tactic(auto, using(crate::proofs::Standing::asks_refused, crate::proofs::Unchanged::asks_whole))]
    pub fn ask(
        &mut self,
        alloc: Global,
        partition: Partition,
        sequence: Sequence,
    ) -> Result<Request, AllocError>
        requires numbers { self.old.server.numbers.made < 2 ^ 63 }
        requires due { passes asks_due (replica_of self.old.server.table partition sequence) ≡ true }
        ensures ok { IfOk result (NodeAsks partition sequence self.old self.new) }
        ensures err { OnErr result (self.new ≡ self.old) }
    {
        match self.server.next_request(alloc, partition, sequence) {
            Ok(request) => Ok(request),
            Err(refused) => Err(out_of_memory(refused)),
        }
    }

    /// The request of a committing replica for so many more milliseconds. Fails only where memory is refused; the node is
    /// then as it was.
    #[tactic(auto, using(crate::proofs::Standing::extends_refused, crate::proofs::Unchanged::asks_for_whole))]
    pub fn ask_for(
        &mut self,
        partition: Partition,
        sequence: Sequence,
        millis: u64,
    ) -> Result<Request, AllocError>
        requires numbers { self.old.server.numbers.made < 2 ^ 63 }
        requires due { passes extends_now (replica_of self.old.server.table partition sequence) ≡ true }
        ensures ok { IfOk result (NodeAsksFor partition sequence millis self.old self.new) }
        ensures err { OnErr result (self.new ≡ self.old) }
    {
        match self.server.extend(partition, sequence, millis) {
            Ok(request) => Ok(request),
            Err(refused) => Err(out_of_memory(refused)),
        }
    }
}
