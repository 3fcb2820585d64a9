//! The replicas of a server take messages, end and seal their segments.
ghost use Rattle.std.specs.Prelude.{◌≡◌, ◌<◌, ◌-◌, ◌^◌, true, length};
ghost use Rattle.rt_live_server.specs.Acting.{Quietly};

use crate::acting::Acting;
use crate::did::ServerDid;
use crate::looking::has_taken_to;
use rt_base::{Moment, Partition, Sequence};
use rt_entry::ServerRefused;
use rt_ground::Naming;
use rt_live_names::Cluster;
use std::alloc::Global;
use std::sync::Wait;

/// The messages that a replica takes at once.
pub(crate) const BATCH: u32 = 100;

impl<R: Wait + Copy, J: Naming, K: Cluster> Acting<R, J, K> {
    /// The replica of a segment takes messages. NotDue also where the stream shows fewer than it took, which never is,
    /// and where the diary has no room for it.
    pub(crate) fn consume_one(
        &mut self,
        alloc: Global,
        partition: Partition,
        sequence: Sequence,
        now: Moment,
    ) -> Result<(), ServerRefused>
        requires room { length self.old.did < 2 ^ 64 - 1 }
        requires up { self.old.up ≡ true }
        ensures { Quietly self.old self.new }
    {
        let Some(length) = self.length(partition) else {
            return Err(ServerRefused::NotDue);
        };
        if !self.has_room() {
            return Err(ServerRefused::NotDue);
        }
        if !has_taken_to(&self.server, partition, sequence, length) {
            return Err(ServerRefused::NotDue);
        }
        let result = self.server.consume(
            alloc,
            partition,
            sequence,
            &mut self.caller.stream,
            BATCH,
            now,
        );
        let told = self.caller.stream.front().told();
        let did = ServerDid::Consumed {
            partition,
            sequence,
            max: BATCH,
            now,
            told,
            result,
        };
        did.note(&mut self.diary);
        result
    }
}

impl<R, J: Naming, K: Cluster> Acting<R, J, K> {
    /// The replica of a segment is made to end it.
    pub(crate) fn force_one(
        &mut self,
        partition: Partition,
        sequence: Sequence,
    ) -> Result<(), ServerRefused>
        requires room { length self.old.did < 2 ^ 64 - 1 }
        requires up { self.old.up ≡ true }
        ensures { Quietly self.old self.new }
    {
        let result = self.server.force(partition, sequence);
        let did = ServerDid::Forced {
            partition,
            sequence,
            result,
        };
        did.note(&mut self.diary);
        result
    }

    /// The replica of a segment seals its rows.
    pub(crate) fn build_one(
        &mut self,
        alloc: Global,
        partition: Partition,
        sequence: Sequence,
    ) -> Result<(), ServerRefused>
        requires room { length self.old.did < 2 ^ 64 - 1 }
        requires up { self.old.up ≡ true }
        ensures { Quietly self.old self.new }
    {
        let result = self.server.build(alloc, partition, sequence);
        let did = ServerDid::Built {
            partition,
            sequence,
            result,
        };
        did.note(&mut self.diary);
        result
    }
}
