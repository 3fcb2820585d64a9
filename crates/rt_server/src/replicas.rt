//! The calls of the replicas, through their server.
ghost use Rattle.std.specs.Prelude.{◌≡◌, ◌<◌, ◌^◌};
ghost use Rattle.rt_server.specs.Calls.{Asks, AsksFor, Forces, InTable, Seals, Stops, Takes, replied_in};
ghost use Rattle.rt_server.specs.Logs.{HasMessages};

use crate::Server;
use crate::table::Table;
use rt_base::{Moment, Partition, Sequence};
use rt_entry::ServerRefused;
use rt_model::{Reply, Request};
use rt_msgs::Numbers;
use rt_replica::Replica;
use rt_stream::Feed;
use std::alloc::Global;

impl Table {
    /// The call of that name of the segment's replica.
    #[tactic(auto, using(crate::proofs::Through::takes, crate::proofs::Through::takes_none, crate::proofs::Through::takes_from))]
    pub(crate) fn consume<F: Feed>(
        &mut self,
        alloc: Global,
        partition: Partition,
        sequence: Sequence,
        feed: &mut F,
        max: u32,
        now: Moment,
    ) -> Result<(), ServerRefused>
        requires { HasMessages (F.meaning feed.old).seen self.old partition sequence }
        ensures { Takes (F.meaning feed.old) (F.meaning feed.new) self.old self.new partition sequence max now result }
    {
        let Some(entry) = self.entries.get_mut(&(partition, sequence)) else {
            return Err(ServerRefused::NotDue);
        };
        entry.consume(alloc, feed, max, now)
    }

    /// The call of that name of the segment's replica. Takes no memory.
    #[tactic(auto, using(crate::proofs::Through::forces, crate::proofs::Through::forces_none))]
    pub(crate) fn force(
        &mut self,
        partition: Partition,
        sequence: Sequence,
    ) -> Result<(), ServerRefused>
        ensures { Forces self.old self.new partition sequence result }
    {
        let Some(entry) = self.entries.get_mut(&(partition, sequence)) else {
            return Err(ServerRefused::NotDue);
        };
        entry.force()
    }

    /// The call of that name of the segment's replica. Takes no memory.
    #[tactic(auto, using(crate::proofs::Through::stops, crate::proofs::Through::stops_none))]
    pub(crate) fn stop(
        &mut self,
        partition: Partition,
        sequence: Sequence,
    ) -> Result<(), ServerRefused>
        ensures { Stops self.old self.new partition sequence result }
    {
        let Some(entry) = self.entries.get_mut(&(partition, sequence)) else {
            return Err(ServerRefused::NotDue);
        };
        entry.stop()
    }

    /// The call of that name of the segment's replica.
    #[tactic(auto, using(crate::proofs::Through::seals, crate::proofs::Through::seals_none))]
    pub(crate) fn build(
        &mut self,
        alloc: Global,
        partition: Partition,
        sequence: Sequence,
    ) -> Result<(), ServerRefused>
        ensures { Seals self.old self.new partition sequence result }
    {
        let Some(entry) = self.entries.get_mut(&(partition, sequence)) else {
            return Err(ServerRefused::NotDue);
        };
        entry.build(alloc)
    }

    /// The call of that name of the segment's replica.
    #[tactic(auto, using(crate::proofs::Through::asks, crate::proofs::Through::asks_none))]
    pub(crate) fn next_request(
        &mut self,
        alloc: Global,
        partition: Partition,
        sequence: Sequence,
        numbers: &mut Numbers,
    ) -> Result<Request, ServerRefused>
        requires { numbers.old.made < 2 ^ 63 }
        ensures { Asks numbers.old numbers.new self.old self.new partition sequence result }
    {
        let Some(entry) = self.entries.get_mut(&(partition, sequence)) else {
            return Err(ServerRefused::NotDue);
        };
        entry.next_request(alloc, numbers)
    }

    /// The call of that name of the segment's replica. Takes no memory.
    #[tactic(auto, using(crate::proofs::Through::asks_for, crate::proofs::Through::asks_for_none))]
    pub(crate) fn extend(
        &mut self,
        partition: Partition,
        sequence: Sequence,
        numbers: &mut Numbers,
        millis: u64,
    ) -> Result<Request, ServerRefused>
        requires { numbers.old.made < 2 ^ 63 }
        ensures { AsksFor numbers.old numbers.new millis self.old self.new partition sequence result }
    {
        let Some(entry) = self.entries.get_mut(&(partition, sequence)) else {
            return Err(ServerRefused::NotDue);
        };
        entry.extend(numbers, millis)
    }

    /// Hands an answer to the replica of the segment that it names, and tells whether it is the one that is waited for.
    /// Takes no memory.
    #[tactic(auto, using(crate::proofs::Through::replies, crate::proofs::Through::replies_none))]
    pub(crate) fn on_reply(&mut self, reply: Reply) -> bool
        ensures { (result, self.new) ≡ replied_in self.old reply }
    {
        let segment = (reply.partition, reply.sequence);
        let Some(entry) = self.entries.get_mut(&segment) else {
            return false;
        };
        entry.on_reply(reply)
    }
}

impl Server {
    /// [`Replica::consume`] of the segment's replica; NotDue where there is none.
    #[tactic(auto, using(crate::proofs::Kept::takes_keep))]
    pub fn consume<F: Feed>(
        &mut self,
        alloc: Global,
        partition: Partition,
        sequence: Sequence,
        feed: &mut F,
        max: u32,
        now: Moment,
    ) -> Result<(), ServerRefused>
        requires { HasMessages (F.meaning feed.old).seen self.old.table partition sequence }
        ensures step { Takes (F.meaning feed.old) (F.meaning feed.new) self.old.table self.new.table partition sequence max now result }
        ensures others { InTable self.old self.new }
    {
        self.table
            .consume(alloc, partition, sequence, feed, max, now)
    }

    /// [`Replica::force`] of the segment's replica; NotDue where there is none. Takes no memory.
    #[tactic(auto, using(crate::proofs::Kept::forces_keep))]
    pub fn force(&mut self, partition: Partition, sequence: Sequence) -> Result<(), ServerRefused>
        ensures step { Forces self.old.table self.new.table partition sequence result }
        ensures others { InTable self.old self.new }
    {
        self.table.force(partition, sequence)
    }

    /// [`Replica::stop`] of the segment's replica; NotDue where there is none. Takes no memory.
    #[tactic(auto, using(crate::proofs::Kept::stops_keep))]
    pub fn stop(&mut self, partition: Partition, sequence: Sequence) -> Result<(), ServerRefused>
        ensures step { Stops self.old.table self.new.table partition sequence result }
        ensures others { InTable self.old self.new }
    {
        self.table.stop(partition, sequence)
    }

    /// [`Replica::build`] of the segment's replica; NotDue where there is none.
    #[tactic(auto, using(crate::proofs::Kept::seals_keep))]
    pub fn build(
        &mut self,
        alloc: Global,
        partition: Partition,
        sequence: Sequence,
    ) -> Result<(), ServerRefused>
        ensures step { Seals self.old.table self.new.table partition sequence result }
        ensures others { InTable self.old self.new }
    {
        self.table.build(alloc, partition, sequence)
    }

    /// [`Replica::next_request`] of the segment's replica, with the next number of the incarnation; NotDue where there is
    /// none.
    #[tactic(auto, using(crate::proofs::Kept::asks_keep))]
    pub fn next_request(
        &mut self,
        alloc: Global,
        partition: Partition,
        sequence: Sequence,
    ) -> Result<Request, ServerRefused>
        requires { self.old.numbers.made < 2 ^ 63 }
        ensures step { Asks self.old.numbers self.new.numbers self.old.table self.new.table partition sequence result }
        ensures setup { self.new.setup ≡ self.old.setup }
    {
        self.table
            .next_request(alloc, partition, sequence, &mut self.numbers)
    }

    /// [`Replica::extend`] of the segment's replica, with the next number of the incarnation; NotDue where there is none.
    /// Takes no memory.
    #[tactic(auto, using(crate::proofs::Kept::asks_for_keep))]
    pub fn extend(
        &mut self,
        partition: Partition,
        sequence: Sequence,
        millis: u64,
    ) -> Result<Request, ServerRefused>
        requires { self.old.numbers.made < 2 ^ 63 }
        ensures step { AsksFor self.old.numbers self.new.numbers millis self.old.table self.new.table partition sequence result }
        ensures setup { self.new.setup ≡ self.old.setup }
    {
        self.table
            .extend(partition, sequence, &mut self.numbers, millis)
    }

    /// [`Replica::on_reply`] of the replica of the segment that the answer names; false where there is none. Takes no
    /// memory.
    #[tactic(auto, using(crate::proofs::Kept::replies_keep))]
    pub fn on_reply(&mut self, reply: Reply) -> bool
        ensures step { (result, self.new.table) ≡ replied_in self.old.table reply }
        ensures others { InTable self.old self.new }
    {
        self.table.on_reply(reply)
    }
}
