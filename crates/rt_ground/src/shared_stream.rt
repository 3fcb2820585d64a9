ghost use Rattle.std.specs.Prelude.{◌≡◌, ◌≤◌, length, IfOk};
ghost use Rattle.rt_stream.specs.Feed.{Fetches, Measures};
ghost use Rattle.rt_ground.specs.Histories.{Meets, SeesMore, AreOfCallers};
ghost use Rattle.rt_ground.specs.StreamCalls.{shared_meaning, SharesBy};

use crate::appended::Appended;
use crate::locked::Locked;
use crate::naming::Naming;
use crate::stream_value::StreamValue;
use rt_base::limits::LONGEST_MESSAGE;
use rt_base::{Offset, Partition};
use rt_front::Front;
use rt_stream::{Feed, FeedRefused, Message, Messages};
use std::alloc::{AllocError, Global};
use std::marker::Model;
use std::sync::Wait;

/// The stream as one of its callers has it. Contracts see the caller's front.
///
/// Each call takes the lock, makes one call of the value behind it and lets go. An append copies its message before that.
#[derive(Drop)]
pub struct SharedStream<R, J: Naming> {
    rt: R,
    shared: Locked<Appended, StreamValue<J>>,
    front: Front<Appended>,
}

impl<R, J: Naming> Model for SharedStream<R, J> {
    ghost use Rattle.rt_front.specs.Histories.{Known};
    ghost use Rattle.rt_ground.specs.declared.appended.Appended.{Appended};

    ghost Value = { Known Appended };

    ghost use Rattle.std.specs.Prelude.{◌≡◌};

    ghost view = { λ s. s.front };

    ghost invariant = { λ s. (s.shared ≡ J.names.stream) × (s.front.chronicle ≡ J.names.stream) };
}

impl<R: Copy, J: Naming> SharedStream<R, J> {
    /// One who shares this value, with this front.
    pub(crate) fn of(
        rt: R,
        locked: &Locked<Appended, StreamValue<J>>,
        front: Front<Appended>,
    ) -> Result<Self, AllocError>
        requires { (locked.now ≡ J.names.stream) × (front.chronicle ≡ J.names.stream) }
        ensures { IfOk result (λ shared. shared ≡ front) }
    {
        Ok(SharedStream {
            rt,
            shared: locked.again()?,
            front,
        })
    }

    /// What the caller has seen, and its own entries.
    pub fn front(&self) -> &Front<Appended>
        ensures { result.now ≡ self.now }
    {
        &self.front
    }

    /// Takes in the front of another caller.
    pub(crate) fn meet(&mut self, other: SharedStream<R, J>)
        ensures { Meets self.old other self.new }
    {
        let SharedStream { front, .. } = other;
        self.front.meet(self.shared.chronicle(), front);
    }
}

impl<R: Wait + Copy, J: Naming> SharedStream<R, J> {
    /// Adds a message at the end of a partition, and answers its offset.
    pub fn append(
        &mut self,
        alloc: Global,
        partition: Partition,
        message: &[u8],
    ) -> Result<Offset, FeedRefused>
        requires { length message.now ≤ LONGEST_MESSAGE }
        ensures { SharesBy J.starting.partitions self.old self.new
            (record { partition = partition; message = message.now }) result }
    {
        let appended = Appended {
            partition,
            message: Message::copied_from(alloc, message)?,
        };
        let mut value = self.shared.lock(&self.rt);
        value.add(alloc, self.shared.chronicle(), &mut self.front, &appended)
    }

    /// Brings the caller's front up to all messages at a moment of the call.
    pub(crate) fn tell(&mut self, rt: &R, locked: &Locked<Appended, StreamValue<J>>)
        requires { locked.now ≡ J.names.stream }
        ensures sees { SeesMore self.old self.new }
        ensures callers { AreOfCallers J.callers self.new.seen }
    {
        let mut value = locked.lock(rt);
        value.tell(locked.chronicle(), &mut self.front);
    }
}

impl<R: Wait + Copy, J: Naming> Feed for SharedStream<R, J> {
    ghost use Rattle.rt_ground.specs.StreamCalls.{shared_meaning};

    ghost meaning = { shared_meaning J.starting.partitions };

    fn fetch(
        &mut self,
        alloc: Global,
        partition: Partition,
        from: Offset,
        max: u32,
    ) -> Result<Messages, FeedRefused>
        ensures feed { Fetches (shared_meaning J.starting.partitions self.old)
            (shared_meaning J.starting.partitions self.new) partition from max result }
        ensures mine { SeesMore self.old self.new }
    {
        let mut value = self.shared.lock(&self.rt);
        value.fetch(
            alloc,
            self.shared.chronicle(),
            &mut self.front,
            partition,
            from,
            max,
        )
    }

    fn length(&mut self, partition: Partition) -> Result<Offset, FeedRefused>
        ensures feed { Measures (shared_meaning J.starting.partitions self.old)
            (shared_meaning J.starting.partitions self.new) partition result }
        ensures mine { SeesMore self.old self.new }
    {
        let mut value = self.shared.lock(&self.rt);
        value.length(self.shared.chronicle(), &mut self.front, partition)
    }
}
