//! A server reads the store and the deep store.
ghost use Rattle.std.specs.Prelude.{◌≡◌, ◌<◌, ◌-◌, ◌^◌, true, length};
ghost use Rattle.rt_live_server.specs.Acting.{Quietly};

use crate::acting::Acting;
use crate::did::ServerDid;
use rt_base::{Moment, Partition, Sequence};
use rt_entry::ServerRefused;
use rt_ground::Naming;
use rt_link::never;
use rt_live_names::Cluster;
use rt_model::ReplicaState;
use std::alloc::Global;
use std::sync::Wait;

impl<R: Wait + Copy, J: Naming, K: Cluster> Acting<R, J, K> {
    /// Reads the ideal state, and answers its version.
    pub(crate) fn see(&mut self, alloc: Global) -> Result<u64, ServerRefused>
        requires room { length self.old.did < 2 ^ 64 - 1 }
        requires up { self.old.up ≡ true }
        ensures { Quietly self.old self.new }
    {
        let result = self.server.see_ideal(alloc, &mut self.caller.store);
        let told = self.caller.store.front().told();
        ServerDid::Saw { told, result }.note(&mut self.diary);
        result
    }

    /// Moves a segment to what the ideal state asks, and answers its state after that. Each segment is of a partition
    /// of the setup.
    pub(crate) fn move_one(
        &mut self,
        rt: &R,
        alloc: Global,
        partition: Partition,
        sequence: Sequence,
        now: Moment,
    ) -> Result<ReplicaState, ServerRefused>
        requires room { length self.old.did < 2 ^ 64 - 1 }
        requires up { self.old.up ≡ true }
        ensures { Quietly self.old self.new }
    {
        if partition.0 >= self.partitions {
            return never(rt);
        }
        let result = self
            .server
            .transit(alloc, partition, sequence, now, &mut self.caller.store);
        let told = self.caller.store.front().told();
        let did = ServerDid::Moved {
            partition,
            sequence,
            now,
            told,
            result,
        };
        did.note(&mut self.diary);
        result
    }

    /// Loads the file of a committed segment, and answers the number of its rows.
    pub(crate) fn load_one(
        &mut self,
        alloc: Global,
        partition: Partition,
        sequence: Sequence,
    ) -> Result<u32, ServerRefused>
        requires room { length self.old.did < 2 ^ 64 - 1 }
        requires up { self.old.up ≡ true }
        ensures { Quietly self.old self.new }
    {
        let result = self
            .server
            .download(alloc, partition, sequence, &mut self.caller.deep);
        let told = self.caller.deep.front().told();
        let did = ServerDid::Loaded {
            partition,
            sequence,
            told,
            result,
        };
        did.note(&mut self.diary);
        result
    }
}
