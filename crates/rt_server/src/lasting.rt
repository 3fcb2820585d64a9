//! What lasts of a server, with respect to what has grown so far: the stream, the store's history, the files and the
//! messages. Each law is a function without a body, and its contract is the law. A call over a store, a deep store or a
//! stream is told of a past that has what the call left seen.
ghost use Rattle.std.specs.Prelude.{◌≡◌, ◌<◌, ◌≤◌, ◌^◌, ℕ, Bool, List, length, Option, Some, IfSome, Result, Ok, Err};
ghost use Rattle.rt_base.specs.declared.header.Header.{Header};
ghost use Rattle.rt_base.specs.declared.numbers.Instance.{Instance};
ghost use Rattle.rt_base.specs.declared.numbers.Moment.{Moment};
ghost use Rattle.rt_base.specs.declared.numbers.Partition.{Partition};
ghost use Rattle.rt_base.specs.declared.numbers.Sequence.{Sequence};
ghost use Rattle.rt_lists.specs.Members.{Has};
ghost use Rattle.rt_segment.specs.Segment.{SealedSegment};
ghost use Rattle.rt_stream.specs.Feed.{FeedMeaning};
ghost use Rattle.rt_stream.specs.Log.{messages_of};
ghost use Rattle.rt_model.specs.declared.commit.Commit.{Commit};
ghost use Rattle.rt_model.specs.declared.piece.Piece.{Piece};
ghost use Rattle.rt_model.specs.declared.replica_state.ReplicaState.{ReplicaState};
ghost use Rattle.rt_model.specs.declared.reply.Reply.{Reply};
ghost use Rattle.rt_model.specs.declared.request.Request.{Request};
ghost use Rattle.rt_model.specs.declared.seg_meta.SeenMeta.{SeenMeta};
ghost use Rattle.rt_model.specs.declared.sent.Sent.{Sent};
ghost use Rattle.rt_model.specs.declared.sent.Sent.TheVariants as sent;
ghost use Rattle.rt_model.specs.declared.setup.Setup.{Setup};
ghost use Rattle.rt_model.specs.declared.status.Status.TheVariants.{Done};
ghost use Rattle.rt_model.specs.Lawful.{bump};
ghost use Rattle.rt_model.specs.Setup.{IsSetup};
ghost use Rattle.rt_store.specs.Answers.{after_call};
ghost use Rattle.rt_store.specs.Calls.{told_on};
ghost use Rattle.rt_store.specs.Meaning.{Meaning, Told};
ghost use Rattle.rt_deep.specs.Meaning.{Meaning as DeepMeaning};
ghost use Rattle.rt_past.specs.Past.{Past, Grows, with_history, with_request};
ghost use Rattle.rt_past.specs.Files.{IsStored};
ghost use Rattle.rt_past.specs.IsPast.{IsPast, fresh_past};
ghost use Rattle.rt_past.specs.Requests.{AreDrawn};
ghost use Rattle.rt_consumer.specs.declared.consumer.Consumer.{Consumer};
ghost use Rattle.rt_consumer.specs.Consumer.{IsConsumer, cur, state_of};
ghost use Rattle.rt_replica.specs.Lasting.{IsReplica};
ghost use Rattle.rt_consumer.specs.Serving.{told_in};
ghost use Rattle.rt_entry.specs.declared.entry.Entry.{Entry};
ghost use Rattle.rt_entry.specs.declared.entry.Entry.TheVariants.{Committed};
ghost use Rattle.rt_entry.specs.declared.entry.CommittedSegment.{CommittedSegment};
ghost use Rattle.rt_entry.specs.declared.refused.ServerRefused.{ServerRefused};
ghost use Rattle.rt_entry.specs.declared.refused.ServerRefused.TheVariants.{BadFile};
ghost use Rattle.rt_entry.specs.declared.served_rows.ServedRows.{ServedRows};
ghost use Rattle.rt_entry.specs.Entry.{wanted_by};
ghost use Rattle.rt_server.specs.Calls.{Asks, AsksFor, Forces, InTable, Restarts, Seals, SeesIdeal, Stops, Takes, Transits, crashed, replied_in};
ghost use Rattle.rt_server.specs.Download.{Downloads};
ghost use Rattle.rt_server.specs.Fresh.{IsFreshOf, fresh};
ghost use Rattle.rt_server.specs.Lasting.{HasAsked, IsCommittedOver, IsEmpty, IsServerOver};
ghost use Rattle.rt_server.specs.LastingRows.{AreRightRows, CommittedRows, IsLoadedCopy, IsRightCommitted, IsRightCopy, IsToldOf, committed_rows};
ghost use Rattle.rt_server.specs.Logs.{HasMessages};
ghost use Rattle.rt_server.specs.Past.{HasHistory, StartsWithItsNode};
ghost use Rattle.rt_server.specs.Serving.{serve};
ghost use Rattle.rt_server.specs.Table.{ServerState, entry_of, file_at, replica_of, segment_of};

/// What lasts of a server is true of a fresh one in a fresh cluster, and stays true as the past grows. A fresh one has seen the
/// starting ideal state, and has a started replica of each segment that this asks of it, and nothing else.
pub fn what_lasts_of_a_server_stays_true()
    ensures begins { (setup : Setup) (i : Instance) → IsSetup setup → i.0 < setup.servers
        → IsServerOver setup (fresh_past setup) (fresh setup i) }
    ensures fresh { (setup : Setup) (i : Instance) → IsFreshOf setup i (fresh setup i) }
    ensures grows { (setup : Setup) (a b : Past) (s : ServerState) → Grows a b → IsServerOver setup a s → IsServerOver setup b s }
{}

/// Over a right past a server's own calls keep it: as it sees the ideal state, moves a segment, loads a file, crashes, and
/// restarts after a crash.
pub fn each_call_of_a_server_keeps_what_lasts()
    ensures sees { (setup : Setup) (past : Past) (before after : Meaning) (old new : ServerState) (result : Result ℕ ServerRefused)
        → past.history ≡ after.seen → IsPast setup past → IsServerOver setup past old → SeesIdeal before after old new result
        → IsServerOver setup past new × (new.numbers ≡ old.numbers) }
    ensures transits { (setup : Setup) (past : Past) (before after : Meaning) (old new : ServerState) (p : Partition) (q : Sequence) (now : Moment)
        (result : Result ReplicaState ServerRefused) → past.history ≡ after.seen → IsPast setup past → IsServerOver setup past old
        → Transits before after old new p q now result → IsServerOver setup past new × (new.numbers ≡ old.numbers) }
    ensures downloads { (setup : Setup) (past : Past) (before after : DeepMeaning) (old new : ServerState) (p : Partition) (q : Sequence)
        (result : Result ℕ ServerRefused) → past.files ≡ after.seen → IsPast setup past → IsServerOver setup past old
        → Downloads before after old.setup.schema old.table new.table p q result → InTable old new → IsServerOver setup past new }
    ensures crashes { (setup : Setup) (past : Past) (s : ServerState) → IsPast setup past → IsServerOver setup past s
        → IsServerOver setup past (crashed s) × IsEmpty (crashed s) }
    ensures restarts { (setup : Setup) (past : Past) (before after : Meaning) (old new : ServerState) (result : Result ℕ ServerRefused)
        → past.history ≡ after.seen → IsPast setup past → IsEmpty old → IsServerOver setup past old → Restarts before after old new result → IsServerOver setup past new }
{}

/// So do the calls of its replicas there: as one consumes, is forced, is stopped, seals its rows, and takes an answer that was
/// sent.
pub fn each_call_of_a_replica_keeps_what_lasts()
    ensures takes { (setup : Setup) (past : Past) (before after : FeedMeaning) (old new : ServerState) (p : Partition) (q : Sequence) (max : ℕ) (now : Moment)
        (result : Result (Unit {0}) ServerRefused) → past.log ≡ after.seen → IsPast setup past → IsServerOver setup past old
        → Takes before after old.table new.table p q max now result → InTable old new → IsServerOver setup past new }
    ensures forces { (setup : Setup) (past : Past) (old new : ServerState) (p : Partition) (q : Sequence) (result : Result (Unit {0}) ServerRefused)
        → IsPast setup past → IsServerOver setup past old → Forces old.table new.table p q result → InTable old new → IsServerOver setup past new }
    ensures stops { (setup : Setup) (past : Past) (old new : ServerState) (p : Partition) (q : Sequence) (result : Result (Unit {0}) ServerRefused)
        → IsPast setup past → IsServerOver setup past old → Stops old.table new.table p q result → InTable old new → IsServerOver setup past new }
    ensures seals { (setup : Setup) (past : Past) (old new : ServerState) (p : Partition) (q : Sequence) (result : Result (Unit {0}) ServerRefused)
        → IsPast setup past → IsServerOver setup past old → Seals old.table new.table p q result → InTable old new → IsServerOver setup past new }
    ensures replies { (setup : Setup) (past : Past) (old new : ServerState) (reply : Reply) (result : Bool)
        → IsPast setup past → Has past.sent (sent.Reply reply) → IsServerOver setup past old → (result, new.table) ≡ replied_in old.table reply
        → InTable old new → IsServerOver setup past new }
{}

/// What a server asks over a right past, in which the numbers of its requests were drawn, is right and has a fresh number, and
/// what lasts of the server is kept as it is sent; a refused call changes nothing.
pub fn a_server_asks_what_is_right()
    ensures asks { (setup : Setup) (past : Past) (old new : ServerState) (p : Partition) (q : Sequence) (request : Request)
        → IsPast setup past → IsServerOver setup past old → AreDrawn past.sent old.numbers → old.numbers.made < 2 ^ 63 → new.setup ≡ old.setup
        → Asks old.numbers new.numbers old.table new.table p q (Ok request) → HasAsked setup past old new p q request }
    ensures extends { (setup : Setup) (past : Past) (old new : ServerState) (p : Partition) (q : Sequence) (request : Request) (millis : ℕ)
        → IsPast setup past → IsServerOver setup past old → AreDrawn past.sent old.numbers → old.numbers.made < 2 ^ 63 → new.setup ≡ old.setup
        → AsksFor old.numbers new.numbers millis old.table new.table p q (Ok request) → HasAsked setup past old new p q request }
    ensures sent { (setup : Setup) (past : Past) (old new : ServerState) (p : Partition) (q : Sequence) (request : Request) → IsPast setup past
        → AreDrawn past.sent old.numbers → HasAsked setup past old new p q request
        → Grows past (with_request past request) × IsPast setup (with_request past request) × AreDrawn (with_request past request).sent new.numbers }
    ensures asks_nothing { (old new : ServerState) (p : Partition) (q : Sequence) (e : ServerRefused) → new.setup ≡ old.setup
        → Asks old.numbers new.numbers old.table new.table p q (Err e) → new ≡ old }
    ensures extends_nothing { (old new : ServerState) (p : Partition) (q : Sequence) (millis : ℕ) (e : ServerRefused) → new.setup ≡ old.setup
        → AsksFor old.numbers new.numbers millis old.table new.table p q (Err e) → new ≡ old }
{}

/// A restart bumps the boot node, which keeps a right past right whatever fault it meets, and begins a later incarnation, so
/// that all numbers that were drawn stay drawn.
pub fn a_restart_is_lawful()
    ensures past { (setup : Setup) (past : Past) (t : Told) (i : Instance) → IsPast setup (with_history past t.writes)
        → Grows (with_history past t.writes) (with_history past (told_on t (after_call (bump i))).writes)
        × IsPast setup (with_history past (told_on t (after_call (bump i))).writes) }
    ensures drawn { (setup : Setup) (past : Past) (before after : Meaning) (old new : ServerState) (ms : List Sent) (result : Result ℕ ServerRefused)
        → IsServerOver setup past old → past.history ≡ before.seen → AreDrawn ms old.numbers → Restarts before after old new result
        → AreDrawn ms new.numbers }
{}

/// A file that is wanted stands under the path of a commit that was written, so that no download meets a bad file.
pub fn a_wanted_file_stands()
    ensures stands { (setup : Setup) (past : Past) (i : Instance) (p : Partition) (q : Sequence) (c : CommittedSegment) (commit : Commit)
        → IsPast setup past → IsCommittedOver setup past i p q c → wanted_by c.file c.done.meta.status ≡ Some commit
        → (c.done.meta.status ≡ Done commit) × IsStored setup past p q c.done.meta.start commit }
    ensures never_bad { (setup : Setup) (past : Past) (before after : DeepMeaning) (old new : ServerState) (p : Partition) (q : Sequence)
        (wanted : Header) (found : Option Header) → past.files ≡ after.seen → IsPast setup past → IsServerOver setup past old
        → Downloads before after old.setup.schema old.table new.table p q (Err (BadFile wanted found)) → ⊥ }
{}

/// What a server serves and what it has of committed segments are the stream's rows of those ranges; a file that it loaded is
/// right, in the setup's format and with its indexes, and has the header that the commit names; and a replica that was told of a
/// commit is at its end, or on the way to it.
pub fn what_a_server_has_is_right()
    ensures serves { (setup : Setup) (past : Past) (s : ServerState) (piece : Piece) (served : ServedRows) → IsServerOver setup past s
        → IfSome piece.end (λ end. piece.start.0 ≤ end.0) → serve s.table piece ≡ Ok served
        → AreRightRows setup.schema (messages_of past.log piece.partition) piece served }
    ensures commits { (setup : Setup) (past : Past) (s : ServerState) (p : Partition) (q : Sequence) (e : Entry) (c : CommittedRows) → IsPast setup past
        → IsServerOver setup past s → entry_of s.table p q ≡ Some e → committed_rows e ≡ Some c → IsRightCommitted setup past p q c }
    ensures copies { (setup : Setup) (past : Past) (s : ServerState) (p : Partition) (q : Sequence) (file : SealedSegment) → IsPast setup past
        → IsServerOver setup past s → file_at (entry_of s.table p q) ≡ Some file → IsRightCopy setup past p q file }
    ensures loaded { (setup : Setup) (past : Past) (s : ServerState) (p : Partition) (q : Sequence)
        (c : CommittedSegment) (file : SealedSegment) (commit : Commit) → IsPast setup past
        → IsServerOver setup past s → entry_of s.table p q ≡ Some (Committed c) → c.file ≡ Some file
        → c.done.meta.status ≡ Done commit
        → IsLoadedCopy setup past p q c.done.meta.start commit file }
    ensures told { (setup : Setup) (past : Past) (i : Instance) (incarnation : ℕ) (r : Consumer) (done : SeenMeta) → IsConsumer r
        → IsReplica setup past i incarnation r → told_in r.phase ≡ Some done
        → IsToldOf past r.partition r.sequence (state_of r.phase) (cur r) done }
    ensures replicas { (setup : Setup) (past : Past) (s : ServerState) (p : Partition) (q : Sequence) (r : Consumer) → IsServerOver setup past s
        → replica_of s.table p q ≡ Some r
        → (segment_of r ≡ (p, q)) × IsConsumer r × IsReplica setup past s.numbers.instance s.numbers.incarnation r }
{}

/// What lasts of a server over a right past is what its calls need.
pub fn what_lasts_meets_the_calls()
    ensures history { (setup : Setup) (past : Past) (s : ServerState) (m : Meaning) → IsPast setup past → IsServerOver setup past s
        → past.history ≡ m.seen → HasHistory s m }
    ensures start { (setup : Setup) (past : Past) (s : ServerState) (m : Meaning) (p : Partition) (q : Sequence) → IsPast setup past
        → IsServerOver setup past s → past.history ≡ m.seen → StartsWithItsNode s m p q }
    ensures messages { (setup : Setup) (past : Past) (s : ServerState) (p : Partition) (q : Sequence) → IsPast setup past
        → IsServerOver setup past s → HasMessages past.log s.table p q }
    ensures numbers { (setup : Setup) (past : Past) (s : ServerState) → IsServerOver setup past s → length past.sent < 2 ^ 63
        → s.numbers.made < 2 ^ 63 }
{}
