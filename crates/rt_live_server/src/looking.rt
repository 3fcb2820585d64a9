//! A server looks what its replicas have to do.
ghost use Rattle.std.specs.Prelude.{IfSome, IsTrue};
ghost use Rattle.rt_live_server.specs.Acting.{HasTakenTo, IsLengthOf, Looks};
ghost use Rattle.rt_ground.specs.StreamCalls.{seen_by};

use crate::acting::Acting;
use crate::did::ServerDid;
use crate::due::ServerDue;
use rt_base::{Clock, Moment, Offset, Partition, Sequence};
use rt_ground::Naming;
use rt_live_names::{Cluster, moment};
use rt_replica::{Replica, ReplicaDue};
use rt_server::Server;
use rt_stream::Feed;
use std::sync::Wait;

impl<R: Wait + Copy, J: Naming, K: Cluster> Acting<R, J, K> {
    /// What the replica of a segment has to do next, in a cluster that began at this moment. Where all messages were
    /// appended, it is made to end its segment once it took the last of them.
    pub(crate) fn next_of<C: Clock>(
        &mut self,
        partition: Partition,
        sequence: Sequence,
        start: Moment,
        clock: &C,
        appended: bool,
    ) -> Option<ServerDue>
        ensures { Looks self.old self.new }
    {
        let length = self.length(partition)?;
        let replica = self.server.replica(partition, sequence)?;
        if let Some(due) = replica.next(length, Moment(0)) {
            return Some(due_of(due, partition, sequence, start, clock));
        }
        if !replica.force_due() {
            return None;
        }
        if appended && replica.cur() >= length {
            return Some(ServerDue::Force {
                partition,
                sequence,
            });
        }
        timed(replica, partition, sequence, length, moment(start, clock))
    }

    /// How many messages the stream has of a partition, where it has it, while the server is up and its diary has room.
    pub(crate) fn length(&mut self, partition: Partition) -> Option<Offset>
        ensures looks { Looks self.old self.new }
        ensures length { IfSome result (λ length.
            IsLengthOf (seen_by J.starting.partitions self.new.fronts.stream) partition length) }
    {
        if !self.can_act() {
            return None;
        }
        let result = self.caller.stream.length(partition);
        let told = self.caller.stream.front().told();
        let did = ServerDid::Measured {
            partition,
            told,
            result,
        };
        did.note(&mut self.diary);
        result.ok()
    }
}

/// Whether the replica of a segment took no message from an offset on.
pub(crate) fn has_taken_to(
    server: &Server,
    partition: Partition,
    sequence: Sequence,
    length: Offset,
) -> bool
    ensures { IsTrue result → HasTakenTo server.now partition sequence length }
{
    match server.replica(partition, sequence) {
        Some(replica) => replica.cur() <= length,
        None => false,
    }
}

// What is due of a segment. The clock is read only where its moment is needed.
fn due_of<C: Clock>(
    due: ReplicaDue,
    partition: Partition,
    sequence: Sequence,
    start: Moment,
    clock: &C,
) -> ServerDue {
    match due {
        ReplicaDue::Consume => ServerDue::Consume {
            partition,
            sequence,
            now: moment(start, clock),
        },
        ReplicaDue::Build => ServerDue::Build {
            partition,
            sequence,
        },
        ReplicaDue::Ask => ServerDue::Ask {
            partition,
            sequence,
        },
    }
}

// A replica without a message before it consumes where its time limit has passed.
fn timed(
    replica: &Replica,
    partition: Partition,
    sequence: Sequence,
    length: Offset,
    now: Moment,
) -> Option<ServerDue> {
    if !replica.ready(length, now) {
        return None;
    }
    Some(ServerDue::Consume {
        partition,
        sequence,
        now,
    })
}
