//! What is true of every safe world, for its reader, and so of every world of every run. Each stands on a function that does
//! nothing: its clause is the law.
ghost use Rattle.std.specs.Prelude.{◌≡◌, ◌<◌, ◌≤◌, ℕ, List, length, slice_get, Some, IfSome, Ok};
ghost use Rattle.rt_base.specs.declared.numbers.Instance.{Instance};
ghost use Rattle.rt_base.specs.declared.numbers.Partition.{Partition};
ghost use Rattle.rt_base.specs.declared.numbers.Sequence.{Sequence};
ghost use Rattle.rt_base.specs.declared.range.Range.{Range};
ghost use Rattle.rt_deep.specs.declared.deep_put.DeepPut.{DeepPut};
ghost use Rattle.rt_entry.specs.declared.entry.Entry.{Entry};
ghost use Rattle.rt_entry.specs.declared.served_rows.ServedRows.{ServedRows};
ghost use Rattle.rt_events.specs.declared.event.Event.TheVariants as event;
ghost use Rattle.rt_events.specs.declared.outcome.Outcome.TheVariants as told;
ghost use Rattle.rt_lists.specs.Members.{Has};
ghost use Rattle.rt_model.specs.Chain.{IsChain};
ghost use Rattle.rt_model.specs.Setup.{IsSetup};
ghost use Rattle.rt_model.specs.Tiled.{IsTiled, committed_of};
ghost use Rattle.rt_model.specs.declared.answer.Answer.{Answer};
ghost use Rattle.rt_model.specs.declared.commit.Commit.{Commit};
ghost use Rattle.rt_model.specs.declared.piece.Piece.{Piece};
ghost use Rattle.rt_model.specs.declared.reply.Reply.{Reply};
ghost use Rattle.rt_model.specs.declared.request.Request.{Request};
ghost use Rattle.rt_model.specs.declared.seg_meta.SeenMeta.{SeenMeta};
ghost use Rattle.rt_model.specs.declared.sent.Sent.TheVariants as sent;
ghost use Rattle.rt_model.specs.declared.setup.Setup.{Setup};
ghost use Rattle.rt_model.specs.declared.status.Status.TheVariants.{Done};
ghost use Rattle.rt_past.specs.Files.{IsStored};
ghost use Rattle.rt_past.specs.IsPast.{IsRightUpload};
ghost use Rattle.rt_past.specs.Replies.{IsReply};
ghost use Rattle.rt_past.specs.Requests.{IsRequest};
ghost use Rattle.rt_past.specs.Segments.{WasDone};
ghost use Rattle.rt_consumer.specs.declared.consumer.Consumer.{Consumer};
ghost use Rattle.rt_segment.specs.Segment.{SealedSegment};
ghost use Rattle.rt_server.specs.LastingRows.{AreRightRows, CommittedRows, IsRightCommitted, IsRightCopy, committed_rows};
ghost use Rattle.rt_server.specs.Serving.{serve};
ghost use Rattle.rt_server.specs.Table.{entry_of, file_at};
ghost use Rattle.rt_stream.specs.Log.{messages_of};
ghost use Rattle.rt_state.specs.Finding.{replica_at};
ghost use Rattle.rt_safety.specs.IsAnswered.{IsAnswered};
ghost use Rattle.rt_safety.specs.IsRightReplica.{IsRightReplica};
ghost use Rattle.rt_state.specs.IsSafe.{past_of};
ghost use Rattle.rt_state.specs.IsSafeWorld.{IsSafeWorld};
ghost use Rattle.rt_safety.specs.Runs.{Turn, happens, TurnsTo, Runs};
ghost use Rattle.rt_state.specs.Servers.{FindsItsFile};
ghost use Rattle.rt_world.specs.Step.{Steps};
ghost use Rattle.rt_nodes.specs.declared.server_node.ServerNode.{ServerNode};
ghost use Rattle.rt_state.specs.declared.state.State.{State};

/// Each partition has its chain of segments. The committed ones tile the partition's offsets from its mark on, none of them
/// reaches past the end of the stream, and each has its file.
#[tactic(auto, using(crate::proofs::Worlds::has_chain, crate::proofs::Worlds::is_tiled, crate::proofs::Worlds::committed_within, crate::proofs::Worlds::done_is_stored))]
pub fn partitions_are_chained_and_tiled()
    ensures chained { (w : State) (p : Partition) → IsSafeWorld w → p.0 < w.setup.partitions → IsChain w.store.writes p }
    ensures tiled { (w : State) (p : Partition) → IsSafeWorld w → p.0 < w.setup.partitions → IsTiled w.store.writes p }
    ensures within { (w : State) (p : Partition) (r : Range) → IsSafeWorld w → Has (committed_of w.store.writes p) r
        → r.end.0 ≤ length (messages_of w.log p) }
    ensures stored { (w : State) (p : Partition) (q : Sequence) (done : SeenMeta) (commit : Commit) → IsSafeWorld w
        → WasDone w.store.writes p q done → done.meta.status ≡ Done commit → IsStored w.setup (past_of w) p q done.meta.start commit }
{}

/// Every file of the deep store, every request and every reply that was ever sent is right.
#[tactic(auto, using(crate::proofs::Worlds::file_is_right, crate::proofs::Worlds::request_is_right, crate::proofs::Worlds::reply_is_right))]
pub fn files_and_messages_are_right()
    ensures files { (w : State) (f : DeepPut) → IsSafeWorld w → Has w.deep.files f → IsRightUpload w.setup (past_of w) f }
    ensures requests { (w : State) (q : Request) → IsSafeWorld w → Has w.sent (sent.Request q) → IsRequest w.setup (past_of w) q }
    ensures replies { (w : State) (r : Reply) → IsSafeWorld w → Has w.sent (sent.Reply r) → IsReply (past_of w) r }
{}

/// What a server has of a segment are exactly the stream's rows: its replica's up to where it is, those of a committed entry
/// over the range of a commit that was written, those of its file, and what it serves of a piece.
#[tactic(auto, using(crate::proofs::Worlds::replica_is_right, crate::proofs::Worlds::copy_is_right))]
pub fn servers_have_the_rows_of_the_stream()
    ensures replicas { (w : State) (i : Instance) (p : Partition) (q : Sequence) (r : Consumer) → IsSafeWorld w
        → replica_at w i p q ≡ Some r → IsRightReplica w p q r }
    ensures commits { (w : State) (i : Instance) (n : ServerNode) → IsSafeWorld w → slice_get w.servers i.0 ≡ Some n
        → (p : Partition) (q : Sequence) (e : Entry) (c : CommittedRows) → entry_of n.server.table p q ≡ Some e → committed_rows e ≡ Some c
        → IsRightCommitted w.setup (past_of w) p q c }
    ensures copies { (w : State) (i : Instance) (n : ServerNode) → IsSafeWorld w → slice_get w.servers i.0 ≡ Some n
        → (p : Partition) (q : Sequence) (file : SealedSegment) → file_at (entry_of n.server.table p q) ≡ Some file
        → IsRightCopy w.setup (past_of w) p q file }
    ensures serves { (w : State) (i : Instance) (n : ServerNode) → IsSafeWorld w → slice_get w.servers i.0 ≡ Some n
        → (piece : Piece) (served : ServedRows) → IfSome piece.end (λ end. piece.start.0 ≤ end.0) → serve n.server.table piece ≡ Ok served
        → AreRightRows w.setup.schema (messages_of w.log piece.partition) piece served }
{}

/// No download meets another file than the one that its segment's commit names.
#[tactic(auto, using(rt_state::proofs::NeedsServers::finds_its_file))]
pub fn no_download_meets_a_bad_file()
    ensures { (w : State) (i : Instance) (p : Partition) (q : Sequence) (n : ServerNode) → IsSafeWorld w
        → slice_get w.servers i.0 ≡ Some n → FindsItsFile w.deep n.server p q }
{}

/// Every answer is right over the stream as it then is, and names as missing only what was asked for in vain.
pub fn every_answer_is_right()
    ensures safe { (old new : State) (q : ℕ) (answer : Answer) → IsSafeWorld old → Steps old (event.Answer q) new (Ok (told.Answered answer))
        → IsAnswered old q answer }
    ensures runs { (setup : Setup) (turns : List Turn) (w next : State) (q : ℕ) (answer : Answer) → IsSetup setup → Runs setup turns w
        → TurnsTo w (happens (event.Answer q) (told.Answered answer)) next → IsAnswered w q answer }
{}
