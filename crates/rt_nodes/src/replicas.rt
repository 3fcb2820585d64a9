//! The calls of a replica, at its server.
ghost use Rattle.std.specs.Prelude.{◌≡◌, true, Some, IsSome, IfOk, OnErr};
ghost use Rattle.rt_entry.specs.declared.refused.ServerRefused.TheVariants.{Memory};
ghost use Rattle.rt_server.specs.Logs.{HasMessages};
ghost use Rattle.rt_server.specs.Table.{replica_of};
ghost use Rattle.rt_nodes.specs.Replicas.{passes, stops_in, takes_now, forces_now, stops_now, builds_now, NodeConsumes, NodeForces, NodeStops, NodeBuilds};

use crate::ServerNode;
use rt_base::{Moment, Partition, Sequence};
use rt_events::Outcome;
use rt_model::ReplicaState;
use rt_replica::Replica;
use rt_server::ServerRefused;
use rt_stream::StreamLog;
use std::alloc::{AllocError, Global};

impl ServerNode {
    /// A replica that takes messages takes a batch of at most `max` of them. Fails only where memory is refused; the node
    /// is then as it was.
    #[tactic(auto, using(crate::proofs::Standing::takes_refused, crate::proofs::Standing::takes_stands, crate::proofs::Looks::takes_looks, crate::proofs::Unchanged::takes_whole))]
    pub fn consume(
        &mut self,
        alloc: Global,
        partition: Partition,
        sequence: Sequence,
        log: &mut StreamLog,
        max: u32,
        now: Moment,
    ) -> Result<Outcome, AllocError>
        requires messages { HasMessages log.old self.old.server.table partition sequence }
        requires due { passes (takes_now max) (replica_of self.old.server.table partition sequence) ≡ true }
        ensures ok { IfOk result (NodeConsumes partition sequence max now log.old log.new self.old self.new) }
        ensures err { OnErr result ((self.new ≡ self.old) × (log.new ≡ log.old)) }
    {
        let taken = self
            .server
            .consume(alloc, partition, sequence, log, max, now);
        if let Err(refused) = taken {
            return Err(out_of_memory(refused));
        }
        let replica = self.replica(partition, sequence);
        Ok(Outcome::Consumed {
            cur: replica.cur(),
            rows: replica.rows(),
            state: replica.state(),
        })
    }

    /// A replica's consuming is ended. Fails only where memory is refused; the node is then as it was.
    #[tactic(auto, using(crate::proofs::Standing::forces_refused, crate::proofs::Standing::forces_stands, crate::proofs::Unchanged::forces_whole))]
    pub fn force(&mut self, partition: Partition, sequence: Sequence) -> Result<Outcome, AllocError>
        requires { passes forces_now (replica_of self.old.server.table partition sequence) ≡ true }
        ensures ok { IfOk result (NodeForces partition sequence self.old self.new) }
        ensures err { OnErr result (self.new ≡ self.old) }
    {
        if let Err(refused) = self.server.force(partition, sequence) {
            return Err(out_of_memory(refused));
        }
        Ok(Outcome::Stands(self.replica(partition, sequence).state()))
    }

    /// A replica drops its rows. Fails only where memory is refused; the node is then as it was.
    #[tactic(auto, using(crate::proofs::Standing::stops_refused, crate::proofs::Standing::stops_stands, crate::proofs::Unchanged::stops_whole))]
    pub fn stop(&mut self, partition: Partition, sequence: Sequence) -> Result<Outcome, AllocError>
        requires { passes stops_now (replica_of self.old.server.table partition sequence) ≡ true }
        ensures ok { IfOk result (NodeStops partition sequence self.old self.new) }
        ensures err { OnErr result (self.new ≡ self.old) }
    {
        if let Err(refused) = self.server.stop(partition, sequence) {
            return Err(out_of_memory(refused));
        }
        Ok(Outcome::Stands(self.replica(partition, sequence).state()))
    }

    /// A replica seals its rows. Fails only where memory is refused; the node is then as it was.
    #[tactic(auto, using(crate::proofs::Standing::seals_refused, crate::proofs::Standing::seals_stands, crate::proofs::Unchanged::seals_whole))]
    pub fn build(
        &mut self,
        alloc: Global,
        partition: Partition,
        sequence: Sequence,
    ) -> Result<Outcome, AllocError>
        requires { passes builds_now (replica_of self.old.server.table partition sequence) ≡ true }
        ensures ok { IfOk result (NodeBuilds partition sequence self.old self.new) }
        ensures err { OnErr result (self.new ≡ self.old) }
    {
        if let Err(refused) = self.server.build(alloc, partition, sequence) {
            return Err(out_of_memory(refused));
        }
        let replica = self.replica(partition, sequence);
        Ok(Outcome::Built {
            rows: replica.rows(),
            state: replica.state(),
        })
    }

    /// The replica of a segment that has one.
    fn replica(&self, partition: Partition, sequence: Sequence) -> &Replica
        requires { IsSome (replica_of self.now.server.table partition sequence) }
        ensures { replica_of self.now.server.table partition sequence ≡ Some result.now }
    {
        match self.server.replica(partition, sequence) {
            Some(replica) => replica,
            None => unreachable!(),
        }
    }
}

/// The one refusal of a replica's call that is due.
pub(crate) fn out_of_memory(refused: ServerRefused) -> AllocError
    requires { refused ≡ Memory }
{
    let _ = refused;
    AllocError
}

/// Whether a replica in this state can be stopped.
pub fn stops(state: ReplicaState) -> bool
    ensures { result ≡ stops_in state }
{
    match state {
        ReplicaState::InitialConsuming => true,
        ReplicaState::CatchingUp => true,
        ReplicaState::Holding => true,
        ReplicaState::ConsumingToOnline => true,
        ReplicaState::Committing => true,
        ReplicaState::Retaining => false,
        ReplicaState::Retained => false,
        ReplicaState::Committed => false,
        ReplicaState::Discarded => false,
    }
}
