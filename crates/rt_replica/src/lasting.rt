//! What lasts of a replica, with respect to what has grown so far. Each law is a function without a body, and its
//! contract is the law.
ghost use Rattle.std.specs.Prelude.{◌≡◌, ◌<◌, ◌^◌, ℕ, Some, None, true};
ghost use Rattle.rt_base.specs.declared.numbers.Instance.{Instance};
ghost use Rattle.rt_base.specs.declared.numbers.Moment.{Moment};
ghost use Rattle.rt_base.specs.declared.numbers.Offset.{Offset};
ghost use Rattle.rt_base.specs.declared.numbers.Partition.{Partition};
ghost use Rattle.rt_base.specs.declared.numbers.Sequence.{Sequence};
ghost use Rattle.rt_lists.specs.Members.{Has};
ghost use Rattle.rt_segment.specs.Segment.{SealedSegment};
ghost use Rattle.rt_model.specs.declared.reply.Reply.{Reply};
ghost use Rattle.rt_model.specs.declared.request.RequestKind.{RequestKind};
ghost use Rattle.rt_model.specs.declared.request.RequestKind.TheVariants as kind;
ghost use Rattle.rt_model.specs.declared.request.RequestNumber.{RequestNumber};
ghost use Rattle.rt_model.specs.declared.seg_meta.SeenMeta.{SeenMeta};
ghost use Rattle.rt_model.specs.declared.seg_meta.SegMeta.{SegMeta};
ghost use Rattle.rt_model.specs.declared.sent.Sent.TheVariants as sent;
ghost use Rattle.rt_model.specs.declared.setup.Setup.{Setup};
ghost use Rattle.rt_past.specs.Past.{Past, Grows, with_request};
ghost use Rattle.rt_past.specs.View.{Within};
ghost use Rattle.rt_past.specs.IsPast.{IsPast};
ghost use Rattle.rt_past.specs.Requests.{IsRequest};
ghost use Rattle.rt_past.specs.Segments.{HadEntry, IsAssignedTo, IsBegun, IsBegunAs, IsIncarnation, WasDone};
ghost use Rattle.rt_consumer.specs.declared.consumer.Consumer.{Consumer};
ghost use Rattle.rt_consumer.specs.declared.phase.Phase.{Phase};
ghost use Rattle.rt_consumer.specs.declared.waited.Waited.{Waited};
ghost use Rattle.rt_consumer.specs.Consumer.{IsConsumer, extends_in, number_of, started_of};
ghost use Rattle.rt_consumer.specs.Batch.{consumed};
ghost use Rattle.rt_consumer.specs.Replies.{replied};
ghost use Rattle.rt_consumer.specs.Requests.{IsSealedOf, filed, forced, stopped, learned, kind_in, request_with};
ghost use Rattle.rt_replica.specs.Lasting.{IsAskedIn, IsReplica};

/// What lasts of a replica is true over each past that has all of the one it was true of; so it stays
/// true as the past grows.
pub fn what_lasts_stays_true()
    ensures { (setup : Setup) (a b : Past) (i : Instance) (incarnation : ℕ) (r : Consumer)
        → Within a b → IsReplica setup a i incarnation r → IsReplica setup b i incarnation r }
{}

/// What lasts is true of a replica that begins, and over a right past its own steps keep it: as it consumes from the
/// stream, is forced or stopped, seals its rows, is told of a commit that was written, and takes an answer that was sent.
pub fn each_step_keeps_what_lasts()
    ensures started { (setup : Setup) (past : Past) (i : Instance) (incarnation : ℕ) (p : Partition) (q : Sequence) (meta : SegMeta) (now : Moment)
        → IsPast setup past → p.0 < setup.partitions → IsAssignedTo setup p i → HadEntry past.history p q → IsBegun past.history p q meta.start
        → IsBegunAs past.history p q meta.name
        → IsReplica setup past i incarnation (started_of setup p q meta now) }
    ensures consumed { (setup : Setup) (past : Past) (i : Instance) (incarnation : ℕ) (r new : Consumer) (max : ℕ) (now : Moment)
        → IsPast setup past → IsReplica setup past i incarnation r → consumed r max now past.log ≡ Some new
        → IsReplica setup past i incarnation new }
    ensures forced { (setup : Setup) (past : Past) (i : Instance) (incarnation : ℕ) (r : Consumer) (n : Phase)
        → IsPast setup past → IsReplica setup past i incarnation r → forced r.phase ≡ Some n
        → IsReplica setup past i incarnation (record r { phase = n; waited = None }) }
    ensures stopped { (setup : Setup) (past : Past) (i : Instance) (incarnation : ℕ) (r : Consumer) (n : Phase)
        → IsPast setup past → IsReplica setup past i incarnation r → stopped r.phase ≡ Some n
        → IsReplica setup past i incarnation (record r { phase = n; waited = None }) }
    ensures built { (setup : Setup) (past : Past) (i : Instance) (incarnation : ℕ) (r : Consumer) (file : SealedSegment)
        → IsPast setup past → IsReplica setup past i incarnation r → IsSealedOf r r.phase file
        → IsReplica setup past i incarnation (record r { phase = filed r.phase file; waited = None }) }
    ensures learned { (setup : Setup) (past : Past) (i : Instance) (incarnation : ℕ) (r : Consumer) (done : SeenMeta) (end : Offset)
        → IsPast setup past → IsReplica setup past i incarnation r → WasDone past.history r.partition r.sequence done
        → IsReplica setup past i incarnation (learned r r.phase done end) }
    ensures replied { (setup : Setup) (past : Past) (i : Instance) (incarnation : ℕ) (r : Consumer) (reply : Reply)
        → IsConsumer r → IsPast setup past → Has past.sent (sent.Reply reply)
        → (reply.partition ≡ r.partition) × (reply.sequence ≡ r.sequence) → IsReplica setup past i incarnation r
        → IsReplica setup past i incarnation (replied r reply) }
{}

/// What a replica asks is right over a right past, and once it is sent the replica waits for it.
pub fn a_replica_asks_what_is_right()
    ensures requests { (setup : Setup) (past : Past) (i : Instance) (incarnation : ℕ) (r : Consumer) (number : RequestNumber) (q : RequestKind)
        → IsConsumer r → IsPast setup past → IsReplica setup past i incarnation r → number.instance ≡ i
        → number.incarnation ≡ incarnation → IsIncarnation past.history i incarnation → number.count < 2 ^ 64
        → kind_in r.name number r.phase ≡ Some q → IsRequest setup past (request_with r number q) }
    ensures extends { (setup : Setup) (past : Past) (i : Instance) (incarnation : ℕ) (r : Consumer) (number : RequestNumber) (millis : ℕ)
        → IsConsumer r → IsPast setup past → IsReplica setup past i incarnation r → number.instance ≡ i
        → number.incarnation ≡ incarnation → IsIncarnation past.history i incarnation → number.count < 2 ^ 64
        → extends_in r.phase ≡ true → IsRequest setup past (request_with r number (kind.Extend millis)) }
    ensures waits { (setup : Setup) (past : Past) (i : Instance) (incarnation : ℕ) (r : Consumer) (number : RequestNumber) (q : RequestKind) (w : Waited)
        → IsPast setup (with_request past (request_with r number q)) → IsReplica setup past i incarnation r
        → number.instance ≡ i → number.incarnation ≡ incarnation → number_of w ≡ number → IsAskedIn r.name r.phase w q
        → Grows past (with_request past (request_with r number q))
        → IsReplica setup (with_request past (request_with r number q)) i incarnation (record r { waited = Some w }) }
{}
