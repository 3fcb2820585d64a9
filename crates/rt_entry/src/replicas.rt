//! The calls of an entry's replica.
ghost use Rattle.std.specs.Prelude.{◌≡◌, ◌<◌, ◌^◌};
ghost use Rattle.rt_consumer.specs.Batch.{Consumes};
ghost use Rattle.rt_consumer.specs.Requests.{Builds, Does, Extends, Requests, forced, stopped};
ghost use Rattle.rt_entry.specs.Calls.{EntryCall, TakesFrom, entry_replied};

use crate::refused::answered_as;
use crate::{Entry, ServerRefused};
use rt_base::Moment;
use rt_model::{Reply, Request};
use rt_msgs::Numbers;
use rt_replica::Replica;
use rt_stream::Feed;
use std::alloc::Global;

impl Entry {
    /// [`Replica::consume`] of the replica; NotDue where there is none.
    pub fn consume<F: Feed>(
        &mut self,
        alloc: Global,
        feed: &mut F,
        max: u32,
        now: Moment,
    ) -> Result<(), ServerRefused>
        requires { TakesFrom (F.meaning feed.old).seen self.old }
        ensures { EntryCall ((F.meaning feed.new) ≡ (F.meaning feed.old)) (λ r next answer. Consumes (F.meaning feed.old) (F.meaning feed.new) r next max now answer) self.old self.new result }
    {
        match self {
            Entry::Replica(replica) => answered_as(replica.consume(alloc, feed, max, now)),
            Entry::Committed(_) => Err(ServerRefused::NotDue),
        }
    }

    /// [`Replica::force`] of the replica; NotDue where there is none. Takes no memory.
    pub fn force(&mut self) -> Result<(), ServerRefused>
        ensures { EntryCall (Unit {0}) (λ r next answer. Does (forced r.phase) r next answer) self.old self.new result }
    {
        match self {
            Entry::Replica(replica) => answered_as(replica.force()),
            Entry::Committed(_) => Err(ServerRefused::NotDue),
        }
    }

    /// [`Replica::stop`] of the replica; NotDue where there is none. Takes no memory.
    pub fn stop(&mut self) -> Result<(), ServerRefused>
        ensures { EntryCall (Unit {0}) (λ r next answer. Does (stopped r.phase) r next answer) self.old self.new result }
    {
        match self {
            Entry::Replica(replica) => answered_as(replica.stop()),
            Entry::Committed(_) => Err(ServerRefused::NotDue),
        }
    }

    /// [`Replica::build`] of the replica; NotDue where there is none.
    pub fn build(&mut self, alloc: Global) -> Result<(), ServerRefused>
        ensures { EntryCall (Unit {0}) (λ r next answer. Builds r next answer) self.old self.new result }
    {
        match self {
            Entry::Replica(replica) => answered_as(replica.build(alloc)),
            Entry::Committed(_) => Err(ServerRefused::NotDue),
        }
    }

    /// [`Replica::next_request`] of the replica; NotDue where there is none.
    pub fn next_request(
        &mut self,
        alloc: Global,
        numbers: &mut Numbers,
    ) -> Result<Request, ServerRefused>
        requires { numbers.old.made < 2 ^ 63 }
        ensures { EntryCall (numbers.new ≡ numbers.old) (λ r next answer. Requests r next numbers.old numbers.new answer) self.old self.new result }
    {
        match self {
            Entry::Replica(replica) => answered_as(replica.next_request(alloc, numbers)),
            Entry::Committed(_) => Err(ServerRefused::NotDue),
        }
    }

    /// [`Replica::extend`] of the replica; NotDue where there is none. Takes no memory.
    pub fn extend(&mut self, numbers: &mut Numbers, millis: u64) -> Result<Request, ServerRefused>
        requires { numbers.old.made < 2 ^ 63 }
        ensures { EntryCall (numbers.new ≡ numbers.old) (λ r next answer. Extends r next numbers.old numbers.new millis answer) self.old self.new result }
    {
        match self {
            Entry::Replica(replica) => answered_as(replica.extend(numbers, millis)),
            Entry::Committed(_) => Err(ServerRefused::NotDue),
        }
    }

    /// [`Replica::on_reply`] of the replica; false where there is none. Takes no memory.
    pub fn on_reply(&mut self, reply: Reply) -> bool
        ensures { (result, self.new) ≡ entry_replied self.old reply }
    {
        match self {
            Entry::Replica(replica) => replica.on_reply(reply),
            Entry::Committed(_) => false,
        }
    }
}
