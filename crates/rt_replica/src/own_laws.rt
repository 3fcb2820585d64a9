//! What a replica has of its own: what its server has seen, sent and taken is all that each law speaks
//! of. Each law is a function without a body, and its contract is the law.
ghost use Rattle.std.specs.Prelude.{◌≡◌, ◌<◌, ◌^◌, ℕ, Some, None, true};
ghost use Rattle.rt_base.specs.declared.numbers.Instance.{Instance};
ghost use Rattle.rt_base.specs.declared.numbers.Moment.{Moment};
ghost use Rattle.rt_base.specs.declared.numbers.Offset.{Offset};
ghost use Rattle.rt_base.specs.declared.numbers.Partition.{Partition};
ghost use Rattle.rt_base.specs.declared.numbers.Sequence.{Sequence};
ghost use Rattle.rt_lists.specs.Members.{Has};
ghost use Rattle.rt_segment.specs.Segment.{SealedSegment};
ghost use Rattle.rt_model.specs.declared.reply.Reply.{Reply};
ghost use Rattle.rt_model.specs.declared.request.Request.{Request};
ghost use Rattle.rt_model.specs.declared.request.RequestKind.{RequestKind};
ghost use Rattle.rt_model.specs.declared.request.RequestKind.TheVariants as kind;
ghost use Rattle.rt_model.specs.declared.request.RequestNumber.{RequestNumber};
ghost use Rattle.rt_model.specs.declared.seg_meta.SeenMeta.{SeenMeta};
ghost use Rattle.rt_model.specs.declared.seg_meta.SegMeta.{SegMeta};
ghost use Rattle.rt_model.specs.declared.sent.Sent.TheVariants as sent;
ghost use Rattle.rt_model.specs.declared.setup.Setup.{Setup};
ghost use Rattle.rt_past.specs.IsPast.{IsPast};
ghost use Rattle.rt_past.specs.Past.{Past, with_request};
ghost use Rattle.rt_past.specs.Requests.{IsRequest};
ghost use Rattle.rt_past.specs.Segments.{IsBegun, IsBegunAs, IsIncarnation};
ghost use Rattle.rt_past.specs.View.{Within};
ghost use Rattle.rt_consumer.specs.declared.consumer.Consumer.{Consumer};
ghost use Rattle.rt_consumer.specs.declared.phase.Phase.{Phase};
ghost use Rattle.rt_consumer.specs.declared.waited.Waited.{Waited};
ghost use Rattle.rt_consumer.specs.Batch.{consumed};
ghost use Rattle.rt_consumer.specs.Consumer.{IsConsumer, extends_in, number_of, started_of};
ghost use Rattle.rt_consumer.specs.Replies.{replied};
ghost use Rattle.rt_consumer.specs.Requests.{IsSealedOf, filed, forced, kind_in, learned, request_with, stopped};
ghost use Rattle.rt_replica.specs.Lasting.{IsAskedIn, IsReplica};
ghost use Rattle.rt_replica.specs.Own.{IsOwnReplica, IsOwnRequest, IsPlaced, WasTold};

/// What lasts of a replica is its own; over a right past what is its own is all that lasts of it.
pub fn what_is_its_own_lasts_over_a_right_past()
    ensures forget { (setup : Setup) (past : Past) (i : Instance) (incarnation : ℕ) (r : Consumer)
        → IsReplica setup past i incarnation r → IsOwnReplica setup past i incarnation r }
    ensures back { (setup : Setup) (past : Past) (i : Instance) (incarnation : ℕ) (r : Consumer)
        → IsPast setup past → IsOwnReplica setup past i incarnation r → IsReplica setup past i incarnation r }
{}

/// What is its own, and what it asks, is so over each past that has all of the view that it was so
/// over.
pub fn what_is_its_own_stays_true()
    ensures own { (setup : Setup) (a b : Past) (i : Instance) (incarnation : ℕ) (r : Consumer)
        → Within a b → IsOwnReplica setup a i incarnation r → IsOwnReplica setup b i incarnation r }
    ensures asked { (setup : Setup) (a b : Past) (q : Request)
        → Within a b → IsOwnRequest setup a q → IsOwnRequest setup b q }
{}

/// What is its own is true of a replica that begins, and is kept by its own steps: as it consumes from
/// what its server has seen of the stream, is forced or stopped, seals its rows, is told of a commit,
/// and takes the answer to a request. No other node is asked for it.
pub fn what_is_its_own_is_kept()
    ensures started { (setup : Setup) (view : Past) (i : Instance) (incarnation : ℕ) (p : Partition)
        (q : Sequence) (meta : SegMeta) (now : Moment) → p.0 < setup.partitions
        → IsPlaced setup view.history i p q → IsBegun view.history p q meta.start
        → IsBegunAs view.history p q meta.name
        → IsOwnReplica setup view i incarnation (started_of setup p q meta now) }
    ensures consumed { (setup : Setup) (view : Past) (i : Instance) (incarnation : ℕ)
        (r new : Consumer) (max : ℕ) (now : Moment) → IsOwnReplica setup view i incarnation r
        → consumed r max now view.log ≡ Some new → IsOwnReplica setup view i incarnation new }
    ensures forced { (setup : Setup) (view : Past) (i : Instance) (incarnation : ℕ) (r : Consumer)
        (n : Phase) → IsOwnReplica setup view i incarnation r → forced r.phase ≡ Some n
        → IsOwnReplica setup view i incarnation (record r { phase = n; waited = None }) }
    ensures stopped { (setup : Setup) (view : Past) (i : Instance) (incarnation : ℕ) (r : Consumer)
        (n : Phase) → IsOwnReplica setup view i incarnation r → stopped r.phase ≡ Some n
        → IsOwnReplica setup view i incarnation (record r { phase = n; waited = None }) }
    ensures built { (setup : Setup) (view : Past) (i : Instance) (incarnation : ℕ) (r : Consumer)
        (file : SealedSegment) → IsOwnReplica setup view i incarnation r → IsSealedOf r r.phase file
        → IsOwnReplica setup view i incarnation (record r { phase = filed r.phase file; waited = None }) }
    ensures learned { (setup : Setup) (view : Past) (i : Instance) (incarnation : ℕ) (r : Consumer)
        (done : SeenMeta) (end : Offset) → IsOwnReplica setup view i incarnation r
        → WasTold view r.partition r.sequence done
        → IsOwnReplica setup view i incarnation (learned r r.phase done end) }
    ensures replied { (setup : Setup) (view : Past) (i : Instance) (incarnation : ℕ) (r : Consumer)
        (reply : Reply) → IsOwnReplica setup view i incarnation r → Has view.sent (sent.Reply reply)
        → (reply.partition ≡ r.partition) × (reply.sequence ≡ r.sequence) → IsConsumer r
        → IsOwnReplica setup view i incarnation (replied r reply) }
{}

/// What a replica asks is its own, and once it is sent the replica waits for it. Over a right past such
/// a request is right.
pub fn a_replica_asks_what_is_its_own()
    ensures requests { (setup : Setup) (view : Past) (i : Instance) (incarnation : ℕ) (r : Consumer)
        (number : RequestNumber) (q : RequestKind) → IsConsumer r
        → IsOwnReplica setup view i incarnation r → number.instance ≡ i
        → number.incarnation ≡ incarnation → kind_in r.name number r.phase ≡ Some q
        → IsOwnRequest setup view (request_with r number q) }
    ensures extends { (setup : Setup) (view : Past) (i : Instance) (incarnation : ℕ) (r : Consumer)
        (number : RequestNumber) (millis : ℕ) → IsConsumer r
        → IsOwnReplica setup view i incarnation r → number.instance ≡ i
        → number.incarnation ≡ incarnation → extends_in r.phase ≡ true
        → IsOwnRequest setup view (request_with r number (kind.Extend millis)) }
    ensures waits { (setup : Setup) (view : Past) (i : Instance) (incarnation : ℕ) (r : Consumer)
        (number : RequestNumber) (q : RequestKind) (w : Waited)
        → IsOwnReplica setup view i incarnation r → number.instance ≡ i
        → number.incarnation ≡ incarnation → number_of w ≡ number → IsAskedIn r.name r.phase w q
        → Within view (with_request view (request_with r number q))
        → IsOwnReplica setup (with_request view (request_with r number q)) i incarnation
        (record r { waited = Some w }) }
    ensures right { (setup : Setup) (past : Past) (q : Request) → IsPast setup past
        → IsOwnRequest setup past q
        → IsIncarnation past.history q.number.instance q.number.incarnation
        → q.number.count < 2 ^ 64 → IsRequest setup past q }
{}
