ghost use Rattle.std.specs.Prelude.{◌≡◌, ◌<◌, ◌≤◌, ◌^◌, true, Some, IfOk, length, option_map};
ghost use Rattle.rt_model.specs.Setup.{IsSetup};
ghost use Rattle.rt_stream.specs.Log.{messages_of};
ghost use Rattle.rt_consumer.specs.Consumer.{started_of, state_of, cur, end_of, extends_in};
ghost use Rattle.rt_consumer.specs.Replies.{is_answer, replied};
ghost use Rattle.rt_consumer.specs.Batch.{Consumes};
ghost use Rattle.rt_consumer.specs.Requests.{Does, Builds, Requests, Extends, forced, stopped, builds_in, asks_now, is_due, size_in, is_ready, rows_in, learns_in, learned};
ghost use Rattle.rt_consumer.specs.Next.{next_of};
ghost use Rattle.rt_consumer.specs.Serving.{held_in, file_in, told_in};

use rt_base::{Moment, Offset, Partition, Sequence};
use rt_consumer::{Consumer, ReplicaDue, ReplicaRefused};
use rt_model::{ReplicaState, Reply, Request, SeenMeta, SegMeta, Setup};
use rt_msgs::Numbers;
use rt_mutable::MutableSegment;
use rt_scan::SummarizedSegment;
use rt_stream::Feed;
use std::alloc::{AllocError, Global};
use std::marker::Model;

/// One replica of a segment of a partition.
///
/// It takes the partition's messages from the segment's start on, and holds the rows of all those that it took. It
/// waits for the answer to its last request alone; each change of its state or stage ends the waiting.
#[derive(Drop)]
pub struct Replica {
    consumer: Consumer,
}

impl Model for Replica {
    ghost use Rattle.rt_consumer.specs.declared.consumer.Consumer.{Consumer};
    ghost use Rattle.rt_consumer.specs.Consumer.{IsConsumer};

    ghost Value = { Consumer };

    ghost view = { λ a. a.consumer };

    ghost invariant = { λ a. IsConsumer a.consumer };
}

impl Replica {
    /// A replica in INITIAL_CONSUMING, of the segment that its metadata opens, which begins at `now`. Fails only where
    /// memory is refused.
    #[tactic(auto, using(crate::proofs::Keeps::started_is))]
    pub fn start(
        alloc: Global,
        setup: &Setup,
        partition: Partition,
        sequence: Sequence,
        meta: &SegMeta,
        now: Moment,
    ) -> Result<Replica, AllocError>
        requires { IsSetup setup.now }
        ensures { IfOk result (λ replica. replica ≡ started_of setup.now partition sequence meta.now now) }
    {
        let consumer = Consumer::start(alloc, setup, partition, sequence, meta, now)?;
        Ok(Replica { consumer })
    }

    /// Takes the messages from `cur` on: at most `max`, and until the batch ends, which is at the row limit, the target
    /// or the committed end. An undecodable message moves `cur` and gives no row. In INITIAL_CONSUMING it holds at the
    /// row limit, and where the time limit has passed at `now`. NotDue where the state takes no messages; where it is
    /// refused, all is as before.
    #[tactic(auto, using(crate::proofs::Keeps::consumes_is))]
    pub fn consume<F: Feed>(
        &mut self,
        alloc: Global,
        feed: &mut F,
        max: u32,
        now: Moment,
    ) -> Result<(), ReplicaRefused>
        requires partition { self.old.partition.0 < length (F.meaning feed.old).seen }
        requires within { (cur self.old).0 ≤ length (messages_of (F.meaning feed.old).seen self.old.partition) }
        ensures { Consumes (F.meaning feed.old) (F.meaning feed.new) self.old self.new max now result }
    {
        self.consumer.consume(alloc, feed, max, now)
    }

    /// Ends the consuming: HOLDING, from INITIAL_CONSUMING past the start; else NotDue. Takes no memory.
    #[tactic(auto, using(crate::proofs::Keeps::forces_is))]
    pub fn force(&mut self) -> Result<(), ReplicaRefused>
        ensures { Does (forced self.old.phase) self.old self.new result }
    {
        self.consumer.force()
    }

    /// Drops the rows of a replica that doesn't retain, and isn't retained, committed or discarded; else NotDue. Takes
    /// no memory.
    #[tactic(auto, using(crate::proofs::Keeps::stops_is))]
    pub fn stop(&mut self) -> Result<(), ReplicaRefused>
        ensures { Does (stopped self.old.phase) self.old self.new result }
    {
        self.consumer.stop()
    }

    /// Seals the rows: in RETAINING for serving, and in COMMITTING for the upload; else NotDue. Where it is refused, all
    /// is as before.
    #[tactic(auto, using(crate::proofs::Keeps::builds_is))]
    pub fn build(&mut self, alloc: Global) -> Result<(), ReplicaRefused>
        ensures { Builds self.old self.new result }
    {
        self.consumer.build(alloc)
    }

    /// The request that is due, with the next number, which is then waited for; NotDue where none is. Where it is
    /// refused, all is as before, and no number is drawn.
    #[tactic(auto, using(crate::proofs::Keeps::requests_is))]
    pub fn next_request(
        &mut self,
        alloc: Global,
        numbers: &mut Numbers,
    ) -> Result<Request, ReplicaRefused>
        requires { numbers.old.made < 2 ^ 63 }
        ensures { Requests self.old self.new numbers.old numbers.new result }
    {
        self.consumer.next_request(alloc, numbers)
    }

    /// The request for so many milliseconds more, before the upload; else NotDue. Takes no memory; where it is refused,
    /// all is as before, and no number is drawn.
    #[tactic(auto, using(crate::proofs::Keeps::extends_is))]
    pub fn extend(&mut self, numbers: &mut Numbers, millis: u64) -> Result<Request, ReplicaRefused>
        requires { numbers.old.made < 2 ^ 63 }
        ensures { Extends self.old self.new numbers.old numbers.new millis result }
    {
        self.consumer.extend(numbers, millis)
    }

    /// Takes an answer, and tells whether it is the one that is waited for. Takes no memory; an answer to another
    /// number changes nothing.
    pub fn on_reply(&mut self, reply: Reply) -> bool
        ensures taken { result ≡ is_answer self.old.waited reply }
        ensures step { self.new ≡ replied self.old reply }
    {
        self.consumer.on_reply(reply)
    }

    /// Where the replica stands.
    pub fn state(&self) -> ReplicaState
        ensures { result ≡ state_of self.now.phase }
    {
        self.consumer.phase.state()
    }

    /// The offset of the next message.
    pub fn cur(&self) -> Offset
        ensures { result ≡ cur self.now }
    {
        self.consumer.phase.cur()
    }

    /// The number of rows held.
    pub fn rows(&self) -> u32
        ensures { result ≡ rows_in self.now.phase }
    {
        self.consumer.rows()
    }

    /// Whether a log of that length has a message at `cur`, below the target if there is one, or the time limit has
    /// passed past the start. Takes no memory.
    pub fn ready(&self, length: Offset, now: Moment) -> bool
        ensures { result ≡ is_ready self.now length now }
    {
        self.consumer.ready(length, now)
    }

    /// What the replica has to do next, over a log of this length; None where it has to wait. Takes no memory.
    pub fn next(&self, length: Offset, now: Moment) -> Option<ReplicaDue>
        ensures { result ≡ next_of self.now length now }
    {
        self.consumer.next(length, now)
    }

    /// Whether `force` is due. Takes no memory.
    pub fn force_due(&self) -> bool
        ensures { result ≡ is_due (forced self.now.phase) }
    {
        self.consumer.force_due()
    }

    /// Whether `build` is due. Takes no memory.
    pub fn build_due(&self) -> bool
        ensures { result ≡ builds_in self.now.phase }
    {
        self.consumer.build_due()
    }

    /// Whether `next_request` is due. Takes no memory.
    pub fn request_due(&self) -> bool
        ensures { result ≡ asks_now self.now.phase }
    {
        self.consumer.request_due()
    }

    /// Whether `extend` is due. Takes no memory.
    pub fn extend_due(&self) -> bool
        ensures { result ≡ extends_in self.now.phase }
    {
        self.consumer.extend_due()
    }

    /// The number of bytes of the upload that `next_request` would make now, else 0. Takes no memory.
    pub fn upload_bytes(&self) -> u64
        ensures { result ≡ size_in self.now.phase }
    {
        self.consumer.upload_bytes()
    }

    /// The partition of its segment.
    pub fn partition(&self) -> Partition
        ensures { result ≡ self.now.partition }
    {
        self.consumer.partition
    }

    /// The number of its segment in the partition.
    pub fn sequence(&self) -> Sequence
        ensures { result ≡ self.now.sequence }
    {
        self.consumer.sequence
    }

    /// The offset of its segment's first message.
    pub fn first(&self) -> Offset
        ensures { result ≡ self.now.start }
    {
        self.consumer.start
    }

    /// The rows by column; None where they are sealed or dropped.
    pub fn held(&self) -> Option<&MutableSegment>
        ensures { option_map (λ rows. rows.now) result ≡ held_in self.now.phase }
    {
        self.consumer.held()
    }

    /// The sealed rows of a retained or a committed replica.
    pub fn sealed(&self) -> Option<&SummarizedSegment>
        ensures { option_map (λ file. file.now) result ≡ file_in self.now.phase }
    {
        self.consumer.sealed()
    }

    /// The metadata of the commit that it was told of.
    pub fn told(&self) -> Option<&SeenMeta>
        ensures { option_map (λ done. done.now) result ≡ told_in self.now.phase }
    {
        self.consumer.told()
    }

    /// Whether `learn` is due: in INITIAL_CONSUMING, CATCHING_UP, HOLDING and COMMITTING. Takes no memory.
    pub fn learns(&self) -> bool
        ensures { result ≡ learns_in self.now.phase }
    {
        self.consumer.learns()
    }

    /// Tells a replica of its segment's commit, which ends at `end`, past the start and not before `cur`: with all its
    /// rows it is to retain them, and with fewer it consumes up to the end; a built file is dropped. Takes no memory.
    #[tactic(auto, using(crate::proofs::Keeps::learned_is))]
    pub fn learn(&mut self, done: SeenMeta, end: Offset)
        requires due { learns_in self.old.phase ≡ true }
        requires end { end_of done ≡ Some end }
        requires past { self.old.start.0 < end.0 }
        requires within { (cur self.old).0 ≤ end.0 }
        ensures { self.new ≡ learned self.old self.old.phase done end }
    {
        self.consumer.learn(done, end);
    }
}
