//! What is told of a node.
ghost use Rattle.std.specs.Prelude.{◌≡◌, ◌≤◌, ◌++◌, IfOk, IfSome, OnOk, OnErr, Some, option_map};
ghost use Rattle.std.specs.List.{prefix_len};
ghost use Rattle.rt_server.specs.Table.{replica_of};
ghost use Rattle.rt_nodes.specs.Reading.{leads, rows_of_node, seen_of, seen_as, replica_up, rests_up, stage_of, file_bytes, file_in};

use crate::{ControllerNode, ServerNode};
use rt_base::{Instance, Partition, Sequence};
use rt_lists::Items;
use rt_model::Piece;
use rt_pause::{ReplicaSeen, Stage};
use rt_segment::encode;
use rt_server::{ServeRefused, ServedRows};
use std::alloc::{AllocError, Global};

impl ControllerNode {
    /// Whether it is up and believes that it leads.
    pub fn leads(&self) -> bool
        ensures { result ≡ leads self.now }
    {
        self.up && self.controller.believes()
    }
}

impl ServerNode {
    /// What a server that is up serves of a piece.
    pub fn rows(&self, alloc: Global, piece: Piece) -> Result<Option<ServedRows>, AllocError>
        requires { IfSome piece.end (λ end. piece.start.0 ≤ end.0) }
        ensures { IfOk result (λ rows. rows ≡ rows_of_node (Some self.now) piece) }
    {
        if !self.up {
            return Ok(None);
        }
        match self.server.rows(alloc, piece) {
            Ok(rows) => Ok(Some(rows)),
            Err(ServeRefused::NotServed { .. }) => Ok(None),
            Err(ServeRefused::Memory) => Err(AllocError),
        }
    }

    /// Adds the replicas of a server that is up; where memory is refused, none.
    pub fn add_replicas(
        &self,
        alloc: Global,
        instance: Instance,
        seen: &mut Items<ReplicaSeen>,
    ) -> Result<(), AllocError>
        ensures ok { OnOk result (seen.new ≡ seen.old ++ seen_of instance self.now) }
        ensures err { OnErr result (seen.new ≡ seen.old) }
    {
        if !self.up {
            return Ok(());
        }
        let held = self.server.held(alloc)?;
        let before = seen.len();
        for segment in held.as_slice() {
            match self.add_replica(instance, *segment, seen) {
                Ok(()) => {}
                Err(refused) => {
                    seen.truncate(before);
                    return Err(refused);
                }
            }
        }
        Ok(())
    }

    /// Adds the replica of a segment, where there is one.
    fn add_replica(
        &self,
        instance: Instance,
        segment: (Partition, Sequence),
        seen: &mut Items<ReplicaSeen>,
    ) -> Result<(), AllocError>
        ensures ok { OnOk result (seen.new ≡ seen.old ++ seen_as instance segment (replica_of self.now.server.table segment.0 segment.1)) }
        ensures err { OnErr result (seen.new ≡ seen.old) }
    {
        let (partition, sequence) = segment;
        match self.server.replica(partition, sequence) {
            Some(replica) => seen.push(ReplicaSeen {
                instance,
                partition,
                sequence,
                state: replica.state(),
                cur: replica.cur(),
            }),
            None => Ok(()),
        }
    }

    /// Where the replica of a segment stands, at a server that is up.
    pub fn stage(&self, partition: Partition, sequence: Sequence) -> Option<Stage>
        ensures { result ≡ stage_of (replica_up (Some self.now) partition sequence) }
    {
        if !self.up {
            return None;
        }
        match self.server.replica(partition, sequence) {
            Some(replica) => Some(replica.state()),
            None => None,
        }
    }

    /// How many of the first segments of a list have replicas at rest, at a server that is up.
    #[tactic(auto, using(crate::proofs::Resting::up_rests, crate::proofs::Resting::down_rests))]
    pub fn resting(&self, segments: &[(Partition, Sequence)]) -> usize
        ensures { result ≡ prefix_len (rests_up (Some self.now)) segments.now }
    {
        if self.up {
            self.server.resting(segments)
        } else {
            0
        }
    }

    /// The file of a sealed committed entry of a server that is up.
    pub fn copy_of(
        &self,
        alloc: Global,
        partition: Partition,
        sequence: Sequence,
    ) -> Result<Option<Vec<u8>>, AllocError>
        ensures { IfOk result (λ copy. option_map (λ bytes. bytes.items) copy ≡ file_bytes (file_in (Some self.now) partition sequence)) }
    {
        if !self.up {
            return Ok(None);
        }
        match self.server.sealed(partition, sequence) {
            Some(sealed) => Ok(Some(encode(alloc, sealed)?)),
            None => Ok(None),
        }
    }
}
