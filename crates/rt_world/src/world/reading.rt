//! What a world tells. Each call changes nothing.
ghost use Rattle.std.specs.Prelude.{◌≡◌, ◌≤◌, IfOk, IfSome, IsFalse, Some, option_map};
ghost use Rattle.std.specs.List.{prefix_len};
ghost use Rattle.rt_model.specs.Metadata.{metadata_of};
ghost use Rattle.rt_model.specs.Plan.{plan_of};
ghost use Rattle.rt_world.specs.Reading.{
  up_in,
  leader_in,
  events_left_in,
  length_of,
  end_in,
  is_ready_at,
  next_at,
  due_transits_of,
  wanted_in,
  held_in,
  pieces_of,
  ServesRows,
  replicas_seen,
  stage_at,
  at_rest,
  copy_in,
  ideal_in,
};

use crate::World;
use crate::ends::end_of;
use crate::leaders::leader;
use crate::reading::{copied_pieces, ideal, next, ready, replicas};
use rt_base::limits::MOST_EVENTS;
use rt_base::{ControllerId, Instance, NodeId, Offset, Partition, Sequence};
use rt_broker::Plan;
use rt_consumer::ReplicaDue;
use rt_events::Refusal;
use rt_lists::Items;
use rt_model::{IdealState, Listed, Piece};
use rt_pause::{ReplicaSeen, Stage};
use rt_server::ServedRows;
use std::alloc::{AllocError, Global};

impl World {
    /// Whether a server or a controller is up.
    pub fn up(&self, node: NodeId) -> bool
        ensures { result ≡ up_in self.now.state node }
    {
        match node {
            NodeId::Server(instance) => self.state.is_server_up(instance),
            NodeId::Controller(controller) => self.state.is_controller_up(controller),
            NodeId::Repairer => false,
            NodeId::Broker => false,
            NodeId::Producer => false,
        }
    }

    /// The lowest controller that is up and believes that it leads; else the lowest that is up; none where all are down.
    pub fn leader(&self) -> Option<ControllerId>
        ensures { result ≡ leader_in self.now.state }
    {
        leader(&self.state)
    }

    /// The number of events that the run still has room for.
    pub fn events_left(&self) -> u64
        ensures { result ≡ events_left_in self.now.state }
    {
        MOST_EVENTS.saturating_sub(self.state.counts.events)
    }

    /// The length of a partition's log; 0 where there is no such partition.
    pub fn length(&self, partition: Partition) -> Offset
        requires { IsFalse self.now.spent }
        ensures { result ≡ length_of self.now.state partition }
    {
        if partition.0 < self.state.setup.partitions {
            self.state.log.size(partition)
        } else {
            Offset(0)
        }
    }

    /// The end of the last Done node of a partition, or 0. Takes no memory, and looks at every write of the store.
    pub fn end(&self, partition: Partition) -> Offset
        ensures { result ≡ end_in self.now.state partition }
    {
        end_of(&self.state.store, partition)
    }

    /// Whether a replica has a message to take, or its time limit has passed past its start; false without a replica.
    pub fn ready(&self, instance: Instance, partition: Partition, sequence: Sequence) -> bool
        requires { IsFalse self.now.spent }
        ensures { result ≡ is_ready_at self.now.state instance partition sequence }
    {
        partition.0 < self.state.setup.partitions
            && ready(&self.state, instance, partition, sequence)
    }

    /// What the replica of a segment has to do next; None where it has to wait, and without a replica. Refused as an event
    /// of it is: NoSuchNode where there is no such server or partition, and NodeDown where the server is down. Takes no
    /// memory.
    pub fn next(
        &self,
        instance: Instance,
        partition: Partition,
        sequence: Sequence,
    ) -> Result<Option<ReplicaDue>, Refusal>
        requires { IsFalse self.now.spent }
        ensures { result ≡ next_at self.now.state instance partition sequence }
    {
        self.state.find_server(instance, partition)?;
        Ok(next(&self.state, instance, partition, sequence))
    }

    /// The segments of a server whose transition is due, ascending. Fails only where memory is refused.
    pub fn due_transits(
        &self,
        alloc: Global,
        instance: Instance,
    ) -> Result<Items<(Partition, Sequence)>, AllocError>
        ensures { IfOk result (λ due. due ≡ due_transits_of self.now.state instance) }
    {
        match self.state.servers.get(instance.0 as usize) {
            Some(node) => node.server.due_transits(alloc),
            None => Ok(Items::new(alloc)),
        }
    }

    /// The segments of a server whose file is wanted, ascending. Fails only where memory is refused.
    pub fn wanted(
        &self,
        alloc: Global,
        instance: Instance,
    ) -> Result<Items<(Partition, Sequence)>, AllocError>
        ensures { IfOk result (λ wanted. wanted ≡ wanted_in self.now.state instance) }
    {
        match self.state.servers.get(instance.0 as usize) {
            Some(node) => node.server.wanted(alloc),
            None => Ok(Items::new(alloc)),
        }
    }

    /// The segments that a server has a replica of, ascending. Fails only where memory is refused.
    pub fn held(
        &self,
        alloc: Global,
        instance: Instance,
    ) -> Result<Items<(Partition, Sequence)>, AllocError>
        ensures { IfOk result (λ held. held ≡ held_in self.now.state instance) }
    {
        match self.state.servers.get(instance.0 as usize) {
            Some(node) => node.server.held(alloc),
            None => Ok(Items::new(alloc)),
        }
    }

    /// The plan of a partition that a query noted; empty where none was. Fails only where memory is refused.
    pub fn pieces(
        &self,
        alloc: Global,
        query: u32,
        partition: Partition,
    ) -> Result<Items<Piece>, AllocError>
        ensures { IfOk result (λ pieces. pieces ≡ pieces_of self.now.state query partition) }
    {
        match self.state.query_of(query) {
            Some(asked) => copied_pieces(alloc, asked.pieces(partition)),
            None => Ok(Items::new(alloc)),
        }
    }

    /// The present plan of a partition. Fails only where memory is refused.
    #[tactic(auto, using(rt_broker::proofs::Plans::pieces_of_unasked))]
    pub fn plan_now(&self, alloc: Global, partition: Partition) -> Result<Items<Piece>, AllocError>
        ensures { IfOk result (λ pieces. pieces ≡ plan_of partition (metadata_of self.now.state.store.writes partition)) }
    {
        let nodes = self.state.store.metadata(alloc, partition)?;
        let plan = Plan::make(alloc, partition, nodes.as_slice())?;
        copied_pieces(alloc, plan.pieces())
    }

    /// What a server serves of a piece; none where it is down or doesn't serve it. Fails only where memory is refused.
    pub fn served_rows(
        &self,
        alloc: Global,
        instance: Instance,
        piece: Piece,
    ) -> Result<Option<ServedRows>, AllocError>
        requires { IfSome piece.end (λ end. piece.start.0 ≤ end.0) }
        ensures { IfOk result (ServesRows self.now.state instance piece) }
    {
        match self.state.servers.get(instance.0 as usize) {
            Some(node) => node.rows(alloc, piece),
            None => Ok(None),
        }
    }

    /// The replicas of the servers that are up, by instance, partition and sequence. Fails only where memory is refused.
    pub fn replicas(&self, alloc: Global) -> Result<Items<ReplicaSeen>, AllocError>
        ensures { IfOk result (λ seen. seen ≡ replicas_seen self.now.state) }
    {
        replicas(&self.state, alloc)
    }

    /// Where the replica of a segment stands; none where the server is down or has no replica of it.
    pub fn stage(
        &self,
        instance: Instance,
        partition: Partition,
        sequence: Sequence,
    ) -> Option<Stage>
        ensures { result ≡ stage_at self.now.state instance partition sequence }
    {
        match self.state.servers.get(instance.0 as usize) {
            Some(node) => node.stage(partition, sequence),
            None => None,
        }
    }

    /// How many of the first segments of a list have replicas at rest at a server: RETAINED or COMMITTED, as `stage` tells.
    /// It costs a step for each whose entry follows that of the one before, and a search for any other.
    #[tactic(auto, using(crate::proofs::Resting::rests_there, crate::proofs::Resting::rests_nowhere))]
    pub fn resting(&self, instance: Instance, segments: &[(Partition, Sequence)]) -> usize
        ensures { result ≡ prefix_len (at_rest self.now.state instance) segments.now }
    {
        match self.state.servers.get(instance.0 as usize) {
            Some(node) => node.resting(segments),
            None => 0,
        }
    }

    /// The present metadata nodes of a partition, by sequence. Fails only where memory is refused.
    pub fn nodes(&self, alloc: Global, partition: Partition) -> Result<Items<Listed>, AllocError>
        ensures { IfOk result (λ nodes. nodes ≡ metadata_of self.now.state.store.writes partition) }
    {
        self.state.store.metadata(alloc, partition)
    }

    /// The file of a sealed committed entry; none where the server is down or has none. Fails only where memory is refused.
    pub fn copy_of(
        &self,
        alloc: Global,
        instance: Instance,
        partition: Partition,
        sequence: Sequence,
    ) -> Result<Option<Vec<u8>>, AllocError>
        ensures { IfOk result (λ copy. option_map (λ bytes. bytes.items) copy ≡ copy_in self.now.state instance partition sequence) }
    {
        match self.state.servers.get(instance.0 as usize) {
            Some(node) => node.copy_of(alloc, partition, sequence),
            None => Ok(None),
        }
    }

    /// The present ideal state, of a world that isn't spent.
    #[tactic(auto, using(crate::proofs::Ideals::always_ideal))]
    pub fn ideal(&self) -> &IdealState
        requires { IsFalse self.now.spent }
        ensures { ideal_in self.now.state ≡ Some result.now }
    {
        ideal(&self.state)
    }
}
