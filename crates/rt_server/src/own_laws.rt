//! What a server has of its own: what it has itself seen, sent and taken is all that each law speaks of. Each law is a
//! function without a body, and its contract is the law. A call over a store, a deep store or a stream is told of a view that
//! has what the call left seen; no law asks for another node.
ghost use Rattle.std.specs.Prelude.{◌≡◌, ◌<◌, ◌≤◌, ℕ, Bool, length, Some, IfSome, Result, Ok};
ghost use Rattle.rt_base.specs.declared.numbers.Instance.{Instance};
ghost use Rattle.rt_base.specs.declared.numbers.Moment.{Moment};
ghost use Rattle.rt_base.specs.declared.numbers.Partition.{Partition};
ghost use Rattle.rt_base.specs.declared.numbers.Sequence.{Sequence};
ghost use Rattle.rt_lists.specs.Members.{Has};
ghost use Rattle.rt_stream.specs.Feed.{FeedMeaning};
ghost use Rattle.rt_stream.specs.Log.{messages_of};
ghost use Rattle.rt_model.specs.declared.piece.Piece.{Piece};
ghost use Rattle.rt_model.specs.declared.query.Query.{Query};
ghost use Rattle.rt_model.specs.declared.replica_state.ReplicaState.{ReplicaState};
ghost use Rattle.rt_model.specs.declared.reply.Reply.{Reply};
ghost use Rattle.rt_model.specs.declared.request.Request.{Request};
ghost use Rattle.rt_model.specs.declared.sent.Sent.TheVariants as sent;
ghost use Rattle.rt_model.specs.declared.setup.Setup.{Setup};
ghost use Rattle.rt_model.specs.Setup.{IsSetup};
ghost use Rattle.rt_model.specs.Starting.{Starting};
ghost use Rattle.rt_store.specs.Meaning.{Meaning};
ghost use Rattle.rt_deep.specs.Meaning.{Meaning as DeepMeaning};
ghost use Rattle.rt_agg.specs.declared.served.Served.{Served};
ghost use Rattle.rt_past.specs.Past.{Past};
ghost use Rattle.rt_past.specs.IsPast.{IsPast, fresh_past};
ghost use Rattle.rt_past.specs.View.{IsSound, IsView, Within};
ghost use Rattle.rt_consumer.specs.declared.consumer.Consumer.{Consumer};
ghost use Rattle.rt_replica.specs.Held.{IsHeld};
ghost use Rattle.rt_entry.specs.declared.entry.Entry.{Entry};
ghost use Rattle.rt_entry.specs.declared.refused.ServerRefused.{ServerRefused};
ghost use Rattle.rt_entry.specs.declared.served_rows.ServedRows.{ServedRows};
ghost use Rattle.rt_entry.specs.Serving.{AnswersGroups};
ghost use Rattle.rt_server.specs.Calls.{Asks, AsksFor, Forces, InTable, Restarts, Seals, SeesIdeal, Stops, Takes, Transits, crashed, replied_in};
ghost use Rattle.rt_server.specs.Download.{Downloads};
ghost use Rattle.rt_server.specs.Fresh.{fresh};
ghost use Rattle.rt_server.specs.Given.{IsGivenRight, IsRightAnswer};
ghost use Rattle.rt_server.specs.Lasting.{IsEmpty, IsServerOver};
ghost use Rattle.rt_server.specs.LastingRows.{AreRightRows, CommittedRows, IsRightCommitted, committed_rows};
ghost use Rattle.rt_server.specs.Own.{HasOwnAsked, IsOwnServer};
ghost use Rattle.rt_server.specs.Past.{SeesLawfully};
ghost use Rattle.rt_server.specs.Serving.{serve};
ghost use Rattle.rt_server.specs.Table.{ServerState, entry_of, replica_of};

/// What lasts of a server is its own; over a right past what is its own is all that lasts of it.
pub fn what_is_a_servers_own_lasts_over_a_right_past()
    ensures forget { (setup : Setup) (past : Past) (s : ServerState) → IsServerOver setup past s
        → IsOwnServer setup past s }
    ensures back { (setup : Setup) (past : Past) (s : ServerState) → IsPast setup past
        → IsOwnServer setup past s → s.numbers.instance.0 < setup.servers
        → s.numbers.made ≤ length past.sent → IsServerOver setup past s }
{}

/// What is a server's own is true of a fresh one in a fresh cluster, and stays true in a view that has all of the earlier one.
pub fn what_is_a_servers_own_stays_true()
    ensures begins { (setup : Setup) (i : Instance) → IsSetup setup → i.0 < setup.servers
        → IsOwnServer setup (fresh_past setup) (fresh setup i) }
    ensures grows { (setup : Setup) (a b : Past) (s : ServerState) → Within a b
        → IsOwnServer setup a s → IsOwnServer setup b s }
{}

/// A server's own calls keep it: as it sees the ideal state, moves a segment, loads a file, crashes, and restarts after a
/// crash.
pub fn each_call_of_a_server_keeps_its_own()
    ensures sees { (setup : Setup) (view : Past) (before after : Meaning) (old new : ServerState)
        (result : Result ℕ ServerRefused) → view.history ≡ after.seen → IsOwnServer setup view old
        → SeesIdeal before after old new result → IsOwnServer setup view new
        × (new.numbers ≡ old.numbers) }
    ensures transits { (setup : Setup) (view : Past) (before after : Meaning)
        (old new : ServerState) (p : Partition) (q : Sequence) (now : Moment)
        (result : Result ReplicaState ServerRefused) → view.history ≡ after.seen
        → IsView setup view → p.0 < setup.partitions → IsOwnServer setup view old
        → Transits before after old new p q now result → IsOwnServer setup view new
        × (new.numbers ≡ old.numbers) }
    ensures downloads { (setup : Setup) (view : Past) (before after : DeepMeaning)
        (old new : ServerState) (p : Partition) (q : Sequence) (result : Result ℕ ServerRefused)
        → view.files ≡ after.seen → IsOwnServer setup view old
        → Downloads before after old.setup.schema old.table new.table p q result → InTable old new
        → IsOwnServer setup view new }
    ensures crashes { (setup : Setup) (view : Past) (s : ServerState) → IsOwnServer setup view s
        → IsOwnServer setup view (crashed s) }
    ensures restarts { (setup : Setup) (view : Past) (before after : Meaning)
        (old new : ServerState) (result : Result ℕ ServerRefused) → view.history ≡ after.seen
        → IsEmpty old → IsOwnServer setup view old → Restarts before after old new result
        → IsOwnServer setup view new }
{}

/// So do the calls of its replicas: as one consumes, is forced, is stopped, seals its rows, and takes an answer that was taken.
pub fn each_call_of_a_replica_keeps_its_servers_own()
    ensures takes { (setup : Setup) (view : Past) (before after : FeedMeaning)
        (old new : ServerState) (p : Partition) (q : Sequence) (max : ℕ) (now : Moment)
        (result : Result (Unit {0}) ServerRefused) → view.log ≡ after.seen
        → IsOwnServer setup view old → Takes before after old.table new.table p q max now result
        → InTable old new → IsOwnServer setup view new }
    ensures forces { (setup : Setup) (view : Past) (old new : ServerState) (p : Partition)
        (q : Sequence) (result : Result (Unit {0}) ServerRefused) → IsOwnServer setup view old
        → Forces old.table new.table p q result → InTable old new → IsOwnServer setup view new }
    ensures stops { (setup : Setup) (view : Past) (old new : ServerState) (p : Partition)
        (q : Sequence) (result : Result (Unit {0}) ServerRefused) → IsOwnServer setup view old
        → Stops old.table new.table p q result → InTable old new → IsOwnServer setup view new }
    ensures seals { (setup : Setup) (view : Past) (old new : ServerState) (p : Partition)
        (q : Sequence) (result : Result (Unit {0}) ServerRefused) → IsOwnServer setup view old
        → Seals old.table new.table p q result → InTable old new → IsOwnServer setup view new }
    ensures replies { (setup : Setup) (view : Past) (old new : ServerState) (reply : Reply)
        (result : Bool) → IsOwnServer setup view old → Has view.sent (sent.Reply reply)
        → (result, new.table) ≡ replied_in old.table reply → InTable old new
        → IsOwnServer setup view new }
{}

/// What a server asks is its own, with its next number, and what is its own is kept as that is sent.
pub fn a_server_asks_what_is_its_own()
    ensures asks { (setup : Setup) (view : Past) (old new : ServerState) (p : Partition)
        (q : Sequence) (request : Request) → IsOwnServer setup view old → new.setup ≡ old.setup
        → Asks old.numbers new.numbers old.table new.table p q (Ok request)
        → HasOwnAsked setup view old new p q request }
    ensures extends { (setup : Setup) (view : Past) (old new : ServerState) (p : Partition)
        (q : Sequence) (request : Request) (millis : ℕ) → IsOwnServer setup view old
        → new.setup ≡ old.setup
        → AsksFor old.numbers new.numbers millis old.table new.table p q (Ok request)
        → HasOwnAsked setup view old new p q request }
{}

/// Over a sound past what is a server's own is right: what it has of committed segments and what it serves are the stream's rows
/// of those ranges, and its replicas hold all that they took.
pub fn what_is_a_servers_own_is_right_over_a_sound_past()
    ensures commits { (setup : Setup) (past : Past) (s : ServerState) (p : Partition)
        (q : Sequence) (e : Entry) (c : CommittedRows) → IsSound setup past
        → IsOwnServer setup past s → entry_of s.table p q ≡ Some e → committed_rows e ≡ Some c
        → IsRightCommitted setup past p q c }
    ensures serves { (setup : Setup) (past : Past) (s : ServerState) (piece : Piece)
        (served : ServedRows) → IsSound setup past → IsOwnServer setup past s
        → IfSome piece.end (λ end. piece.start.0 ≤ end.0) → serve s.table piece ≡ Ok served
        → AreRightRows setup.schema (messages_of past.log piece.partition) piece served }
    ensures holds { (setup : Setup) (past : Past) (s : ServerState) (p : Partition) (q : Sequence)
        (r : Consumer) → IsSound setup past → IsOwnServer setup past s
        → replica_of s.table p q ≡ Some r → IsHeld past.log r }
{}

/// What a server gives of a piece is right by what is its own. That stays so in a view that has all of the earlier one, and over a
/// sound past the groups are those of the stream's rows.
pub fn what_a_server_gives_is_right()
    ensures gives { (setup : Setup) (view : Past) (s : ServerState) (query : Query) (piece : Piece)
        (served : Served) → IsOwnServer setup view s
        → IfSome piece.end (λ end. piece.start.0 ≤ end.0)
        → AnswersGroups query (serve s.table piece) (Ok served)
        → IsGivenRight setup view query piece served }
    ensures grows { (setup : Setup) (a b : Past) (query : Query) (piece : Piece) (served : Served)
        → Within a b → IsGivenRight setup a query piece served
        → IsGivenRight setup b query piece served }
    ensures sound { (setup : Setup) (past : Past) (query : Query) (piece : Piece) (served : Served)
        → IsSound setup past → IsGivenRight setup past query piece served
        → IsRightAnswer setup past query piece served }
{}

/// A read of a server keeps its setup, and what its caller has seen of the store grows lawfully.
pub fn a_servers_reads_see_lawfully()
    ensures sees { (s : Starting) (before after : Meaning) (old new : ServerState)
        (result : Result ℕ ServerRefused) → SeesIdeal before after old new result
        → SeesLawfully s before after old new }
    ensures transits { (s : Starting) (before after : Meaning) (old new : ServerState)
        (p : Partition) (q : Sequence) (now : Moment) (result : Result ReplicaState ServerRefused)
        → Transits before after old new p q now result → SeesLawfully s before after old new }
{}
