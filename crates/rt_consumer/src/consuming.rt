//! A replica takes messages of the stream.
ghost use Rattle.std.specs.Prelude.{◌≡◌, ◌<◌, ◌≤◌, length, IfOk};
ghost use Rattle.rt_stream.specs.Log.{messages_of};
ghost use Rattle.rt_consumer.specs.Consumer.{IsConsumer, cur};
ghost use Rattle.rt_consumer.specs.Batch.{Consumes, Looks, messages_from, is_timed_out};
ghost use Rattle.rt_consumer.specs.Requests.{is_ready, is_below_target};

use crate::unsealed::is_timed_out;
use crate::{Consumer, Phase, ReplicaRefused, Stage};
use rt_base::{Moment, Offset, Partition};
use rt_stream::{Feed, Messages};
use std::alloc::{AllocError, Global};

impl Consumer {
    /// Takes the messages from `cur` on: at most `max`, and until the batch ends, which is at the row limit, the target
    /// or the committed end. An undecodable message moves `cur` and gives no row. Where it is refused, all is as
    /// before.
    pub fn consume<F: Feed>(
        &mut self,
        alloc: Global,
        feed: &mut F,
        max: u32,
        now: Moment,
    ) -> Result<(), ReplicaRefused>
        requires is { IsConsumer self.old }
        requires partition { self.old.partition.0 < length (F.meaning feed.old).seen }
        requires within { (cur self.old).0 ≤ length (messages_of (F.meaning feed.old).seen self.old.partition) }
        ensures step { Consumes (F.meaning feed.old) (F.meaning feed.new) self.old self.new max now result }
    {
        let from = self.phase.cur();
        let Phase::Unsealed(unsealed) = &mut self.phase else {
            return Err(ReplicaRefused::NotDue);
        };
        let Some(count) = unsealed.asked(max) else {
            return Err(ReplicaRefused::NotDue);
        };
        let messages = fetch(alloc, feed, self.partition, from, count)?;
        unsealed.take(alloc, &self.settings, self.started, now, &messages)?;
        self.waited = None;
        Ok(())
    }

    /// Whether a log of that length has a message at `cur`, below the target if there is one, or the time limit has
    /// passed past the start. Takes no memory.
    pub fn ready(&self, length: Offset, now: Moment) -> bool
        ensures { result ≡ is_ready self.now length now }
    {
        let cur = self.cur();
        (cur < length && self.phase.is_below_target())
            || is_timed_out(self.settings.millis, self.started, now, self.start, cur)
    }
}

impl Phase {
    /// Whether `cur` lies below the target, where there is one.
    fn is_below_target(&self) -> bool
        ensures { result ≡ is_below_target self.now }
    {
        match self {
            Phase::Unsealed(unsealed) => match &unsealed.stage {
                Stage::CatchingUp { target, .. } => unsealed.rows.end() < *target,
                Stage::ConsumingToOnline { end, .. } => unsealed.rows.end() < *end,
                _ => true,
            },
            _ => true,
        }
    }
}

/// The messages of a partition from an offset on, as many as there are up to a count, from a feed that has as many
/// messages there.
#[tactic(auto, using(crate::proofs::Fetched::fetched_is))]
fn fetch<F: Feed>(
    alloc: Global,
    feed: &mut F,
    partition: Partition,
    from: Offset,
    count: u32,
) -> Result<Messages, AllocError>
    requires partition { partition.0 < length (F.meaning feed.old).seen }
    requires within { from.0 ≤ length (messages_of (F.meaning feed.old).seen partition) }
    ensures looks { Looks (F.meaning feed.old) (F.meaning feed.new) }
    ensures messages { IfOk result (λ messages. messages ≡ messages_from (F.meaning feed.new).seen partition from count) }
{
    match feed.fetch(alloc, partition, from, count) {
        Ok(messages) => Ok(messages),
        Err(_) => Err(AllocError),
    }
}
