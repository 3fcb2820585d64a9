ghost use Rattle.std.specs.Prelude.{◌≡◌, [], true, IfOk};
ghost use Rattle.rt_stream.specs.Feed.{answered};
ghost use Rattle.rt_stream.specs.Log.{fetched, measured};
ghost use Rattle.rt_ground.specs.Callers.{fronts_from};
ghost use Rattle.rt_ground.specs.Histories.{Tells, AreOfCallers};
ghost use Rattle.rt_ground.specs.StreamCalls.{messages, SettledBy, AppendsOnce, Looks};

use crate::appended::Appended;
use crate::naming::Naming;
use crate::register::Register;
use rt_base::{Offset, Partition};
use rt_front::{Blank, Chronicle, Front, Keeper, found};
use rt_stream::{Feed, FeedRefused, Messages, StreamLog};
use std::alloc::{AllocError, Global};
use std::marker::{Model, PhantomData};

/// The stream behind its lock. Contracts see the history of the messages that were added.
///
/// Each call answers by all messages, which the front has seen afterwards. A message that is added is the last entry then,
/// and the front has one entry more of its own; a refused append adds nothing. After an append that ran out of memory all
/// is as before.
#[derive(Drop)]
pub struct StreamValue<J: Naming> {
    messages: StreamLog,
    register: Register<Appended>,
    of: PhantomData<J>,
}

impl<J: Naming> Model for StreamValue<J> {
    ghost use Rattle.std.specs.Prelude.{List};
    ghost use Rattle.rt_front.specs.declared.entry.Entry.{Entry};
    ghost use Rattle.rt_ground.specs.declared.appended.Appended.{Appended};

    ghost Value = { List (Entry Appended) };

    ghost use Rattle.std.specs.Prelude.{◌≡◌};
    ghost use Rattle.rt_ground.specs.Histories.{whats};
    ghost use Rattle.rt_ground.specs.StreamCalls.{log_of};

    ghost view = { λ v. v.register.log };

    ghost invariant = { λ v. (v.register.chronicle ≡ J.names.stream)
        × (v.messages ≡ log_of J.starting.partitions (whats v.register.log))
        × (v.register.made ≡ J.callers) };
}

impl<J: Naming> StreamValue<J> {
    /// Founds a stream of this many partitions, without any message, and the fronts of so many callers. No other front of
    /// it is made.
    pub fn found(
        alloc: Global,
        blank: Blank<Appended>,
        partitions: u32,
        callers: u32,
    ) -> Result<(Chronicle<Appended>, StreamValue<J>, Vec<Front<Appended>>), AllocError>
        requires name { blank ≡ J.names.stream }
        requires partitions { partitions ≡ J.starting.partitions }
        requires callers { callers ≡ J.callers }
        ensures chronicle { IfOk result (λ r. r.0 ≡ J.names.stream) }
        ensures empty { IfOk result (λ r. r.1 ≡ []) }
        ensures fronts { IfOk result (λ r. r.2.items ≡ fronts_from J.names.stream 0 callers) }
    {
        let (chronicle, keeper, fronts) = found(alloc, blank, callers)?;
        let value = StreamValue::fresh(alloc, partitions, keeper)?;
        Ok((chronicle, value, fronts))
    }

    /// A stream of this many partitions, without any message.
    fn fresh(alloc: Global, partitions: u32, keeper: Keeper<Appended>) -> Result<Self, AllocError>
        requires partitions { partitions ≡ J.starting.partitions }
        requires keeper { (keeper.chronicle ≡ J.names.stream) × (keeper.log ≡ []) × (keeper.made ≡ J.callers) }
        ensures { IfOk result (λ value. value ≡ []) }
    {
        Ok(StreamValue {
            messages: StreamLog::make(alloc, partitions)?,
            register: Register::of(alloc, keeper),
            of: PhantomData,
        })
    }

    /// The messages of a partition from an offset on, as many as there are up to `max`.
    pub fn fetch(
        &mut self,
        alloc: Global,
        chronicle: &Chronicle<Appended>,
        front: &mut Front<Appended>,
        partition: Partition,
        from: Offset,
        max: u32,
    ) -> Result<Messages, FeedRefused>
        requires { (chronicle.now ≡ J.names.stream) × (front.old.chronicle ≡ J.names.stream) }
        ensures name { front.new.chronicle ≡ front.old.chronicle }
        ensures looks { Looks J.starting.partitions self.old self.new front.old front.new }
        ensures answer { answered result (fetched (messages J.starting.partitions self.old) partition from max) }
    {
        self.register.tell(chronicle, front);
        self.messages.fetch(alloc, partition, from, max)
    }

    /// The number of messages of a partition: the offset of the next one.
    pub fn length(
        &mut self,
        chronicle: &Chronicle<Appended>,
        front: &mut Front<Appended>,
        partition: Partition,
    ) -> Result<Offset, FeedRefused>
        requires { (chronicle.now ≡ J.names.stream) × (front.old.chronicle ≡ J.names.stream) }
        ensures name { front.new.chronicle ≡ front.old.chronicle }
        ensures looks { Looks J.starting.partitions self.old self.new front.old front.new }
        ensures answer { result ≡ measured (messages J.starting.partitions self.old) partition }
    {
        self.register.tell(chronicle, front);
        self.messages.length(partition)
    }

    /// Brings a front up to the whole history.
    pub(crate) fn tell(&mut self, chronicle: &Chronicle<Appended>, front: &mut Front<Appended>)
        requires { (chronicle.now ≡ J.names.stream) × (front.old.chronicle ≡ J.names.stream) }
        ensures same { self.new ≡ self.old }
        ensures name { front.new.chronicle ≡ front.old.chronicle }
        ensures told { Tells self.old front.old front.new }
        ensures callers { AreOfCallers J.callers self.old }
    {
        self.register.tell(chronicle, front);
    }

    /// Adds a message at the end of a partition, and answers its offset. A caller makes the copy before it takes the lock.
    pub fn add(
        &mut self,
        alloc: Global,
        chronicle: &Chronicle<Appended>,
        front: &mut Front<Appended>,
        appended: &Appended,
    ) -> Result<Offset, FeedRefused>
        requires { (chronicle.now ≡ J.names.stream) × (front.old.chronicle ≡ J.names.stream) }
        ensures name { front.new.chronicle ≡ front.old.chronicle }
        ensures stream { AppendsOnce J.starting.partitions self.old self.new front.old front.new appended.now result }
    {
        self.register.reserve()?;
        let message = appended.message.as_slice();
        let answer = self.messages.append(alloc, appended.partition, message);
        settle(&mut self.register, chronicle, front, appended, answer)
    }
}

/// Notes a message that was added; else tells the front, but where memory ran out.
fn settle(
    register: &mut Register<Appended>,
    chronicle: &Chronicle<Appended>,
    front: &mut Front<Appended>,
    appended: &Appended,
    answer: Result<Offset, FeedRefused>,
) -> Result<Offset, FeedRefused>
    requires chronicle { (register.old.chronicle ≡ chronicle.now) × (front.old.chronicle ≡ chronicle.now) }
    requires room { register.old.room ≡ true }
    ensures same { result ≡ answer }
    ensures names { (register.new.chronicle ≡ register.old.chronicle) × (front.new.chronicle ≡ front.old.chronicle) }
    ensures made { register.new.made ≡ register.old.made }
    ensures settled { SettledBy appended.now register.old.log register.new.log front.old front.new answer }
{
    match answer {
        Ok(offset) => {
            register.note(chronicle, front, appended);
            Ok(offset)
        }
        Err(FeedRefused::Memory) => Err(FeedRefused::Memory),
        Err(refused) => {
            register.tell(chronicle, front);
            Err(refused)
        }
    }
}
