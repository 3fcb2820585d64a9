ghost use Rattle.std.specs.Prelude.{◌≡◌, ◌≤◌, ◌↔◌, ℕ, Some, None, IsSome, Ok, Err, true, false, length};
ghost use Rattle.rt_base.specs.declared.numbers.Moment.{Moment};
ghost use Rattle.rt_base.specs.declared.numbers.Offset.{Offset};
ghost use Rattle.rt_segment.specs.Segment.{SealedSegment};
ghost use Rattle.rt_base.specs.declared.numbers.Partition.{Partition};
ghost use Rattle.rt_base.specs.declared.numbers.Sequence.{Sequence};
ghost use Rattle.rt_stream.specs.Feed.{FeedMeaning, Grows, log_meaning};
ghost use Rattle.rt_stream.specs.Log.{Log, messages_of};
ghost use Rattle.rt_model.specs.declared.reply.Reply.{Reply};
ghost use Rattle.rt_model.specs.declared.seg_meta.SeenMeta.{SeenMeta};
ghost use Rattle.rt_model.specs.declared.seg_meta.SegMeta.{SegMeta};
ghost use Rattle.rt_model.specs.declared.setup.Setup.{Setup};
ghost use Rattle.rt_consumer.specs.declared.consumer.Consumer.{Consumer};
ghost use Rattle.rt_consumer.specs.declared.phase.Phase.{Phase};
ghost use Rattle.rt_consumer.specs.Consumer.{IsConsumer, started_of};
ghost use Rattle.rt_consumer.specs.Replies.{is_answer, replied};
ghost use Rattle.rt_consumer.specs.Batch.{Consumes, consumed};
ghost use Rattle.rt_consumer.specs.Requests.{Builds, IsSealedOf, Requests, filed, forced, is_ready, learned, stopped};
ghost use Rattle.rt_consumer.specs.Next.{next_of};
ghost use Rattle.rt_consumer.specs.declared.next.ReplicaDue.TheVariants.{Ask, Build, Consume};
ghost use Rattle.rt_consumer.specs.declared.refused.ReplicaRefused.TheVariants.{NotDue};
ghost use Rattle.rt_msgs.specs.Numbered.{Numbered};
ghost use Rattle.rt_replica.specs.Held.{IsHeld};

/// A replica that starts within its log holds the rows of all its messages from its start up to `cur`, and stays so: when
/// the log grows, when it consumes from that log, is forced or stopped, takes an answer, seals its rows, or is told of a
/// commit.
pub fn what_is_held_stays_held()
    ensures started { (setup : Setup) (p : Partition) (q : Sequence) (meta : SegMeta) (now : Moment) (log : Log)
        → meta.start.0 ≤ length (messages_of log p) → IsHeld log (started_of setup p q meta now) }
    ensures grows { (old new : Log) (r : Consumer) → Grows old new → IsHeld old r → IsHeld new r }
    ensures consumes { (r : Consumer) (max : ℕ) (now : Moment) (log : Log) (new : Consumer)
        → IsHeld log r → consumed r max now log ≡ Some new → IsHeld log new }
    ensures forced { (r : Consumer) (n : Phase) (log : Log) → forced r.phase ≡ Some n → IsHeld log r
        → IsHeld log (record r { phase = n; waited = None }) }
    ensures stopped { (r : Consumer) (n : Phase) (log : Log) → stopped r.phase ≡ Some n → IsHeld log r
        → IsHeld log (record r { phase = n; waited = None }) }
    ensures replied { (r : Consumer) (reply : Reply) (log : Log) → IsConsumer r → IsHeld log r → IsHeld log (replied r reply) }
    ensures built { (r : Consumer) (file : SealedSegment) (log : Log) → IsSealedOf r r.phase file
        → IsHeld log r → IsHeld log (record r { phase = filed r.phase file; waited = None }) }
    ensures learned { (r : Consumer) (done : SeenMeta) (end : Offset) (log : Log)
        → IsHeld log r → IsHeld log (learned r r.phase done end) }
{}

/// Over a log that is told whole, consuming has one outcome, and leaves the log as it is.
#[tactic(auto, using(crate::proofs::Others::consumes_told))]
pub fn a_told_log_has_one_outcome()
    ensures { (log : Log) (after : FeedMeaning) (old new : Consumer) (max : ℕ) (now : Moment) (u : Unit {0})
        → Consumes (log_meaning log) after old new max now (Ok u)
        → (after ≡ log_meaning log) × (consumed old max now log ≡ Some new) }
{}

/// An answer to any other number than the one that is waited for changes nothing, as one to a number of an earlier life.
#[tactic(auto, using(crate::proofs::Turns::ignored))]
pub fn an_answer_to_another_number_changes_nothing()
    ensures { (r : Consumer) (reply : Reply) → is_answer r.waited reply ≡ false → replied r reply ≡ r }
{}

/// What a replica has to do next can be done, and what can be done is next: consuming exactly where
/// there is something for it and the call is due, and building and asking exactly where the calls are.
pub fn what_is_due_can_be_done()
    ensures consumes { (r : Consumer) (size : Offset) (now : Moment) (max : ℕ) (log : Log)
        → (next_of r size now ≡ Some Consume)
        ↔ ((is_ready r size now ≡ true) × IsSome (consumed r max now log)) }
    ensures builds { (r : Consumer) (size : Offset) (now : Moment) → (next_of r size now ≡ Some Build)
        ↔ ((new : Consumer) → Builds r new (Err NotDue) → ⊥) }
    ensures asks { (r : Consumer) (size : Offset) (now : Moment) → (next_of r size now ≡ Some Ask)
        ↔ ((new : Consumer) (before after : Numbered) → Requests r new before after (Err NotDue) → ⊥) }
{}
