//! What a server's calls keep over stores and a stream that tell everything: the past goes on rightly, what lasts of the server
//! is kept, and all numbers that were drawn stay drawn. Each law is a function without a body, and its contract is the law.
ghost use Rattle.std.specs.Prelude.{◌≡◌, ◌<◌, ◌^◌, ℕ, Bool, length, Option, Result, Ok, Err};
ghost use Rattle.rt_base.specs.declared.header.Header.{Header};
ghost use Rattle.rt_base.specs.declared.numbers.Moment.{Moment};
ghost use Rattle.rt_base.specs.declared.numbers.Partition.{Partition};
ghost use Rattle.rt_base.specs.declared.numbers.Sequence.{Sequence};
ghost use Rattle.rt_lists.specs.Members.{Has};
ghost use Rattle.rt_stream.specs.Feed.{log_meaning};
ghost use Rattle.rt_stream.specs.Log.{Log};
ghost use Rattle.rt_model.specs.declared.replica_state.ReplicaState.{ReplicaState};
ghost use Rattle.rt_model.specs.declared.reply.Reply.{Reply};
ghost use Rattle.rt_model.specs.declared.request.Request.{Request};
ghost use Rattle.rt_model.specs.declared.sent.Sent.TheVariants as sent;
ghost use Rattle.rt_model.specs.declared.setup.Setup.{Setup};
ghost use Rattle.rt_store.specs.Meaning.{Told};
ghost use Rattle.rt_store.specs.Memory.{means};
ghost use Rattle.rt_deep.specs.Meaning.{Told as DeepTold};
ghost use Rattle.rt_deep.specs.Memory.{means as deep_means};
ghost use Rattle.rt_past.specs.Past.{Past, with_files, with_history, with_log};
ghost use Rattle.rt_past.specs.IsPast.{IsPast};
ghost use Rattle.rt_past.specs.Requests.{AreDrawn};
ghost use Rattle.rt_entry.specs.declared.refused.ServerRefused.{ServerRefused};
ghost use Rattle.rt_entry.specs.declared.refused.ServerRefused.TheVariants.{BadFile};
ghost use Rattle.rt_server.specs.Calls.{Asks, AsksFor, Forces, InTable, Restarts, Seals, SeesIdeal, Stops, Takes, Transits, crashed, replied_in};
ghost use Rattle.rt_server.specs.Download.{Downloads};
ghost use Rattle.rt_server.specs.Lasting.{IsEmpty, IsServerOver, SendsRight, StepsRight};
ghost use Rattle.rt_server.specs.Table.{Segments, ServerState};

/// A server's own calls step right: it sees the ideal state, moves a segment, loads a file and never finds another one than
/// the commit names, crashes, and restarts after a crash, with whatever fault it meets.
pub fn a_server_steps_right()
    ensures sees { (setup : Setup) (past : Past) (t u : Told) (old new : ServerState) (result : Result ℕ ServerRefused) → IsPast setup past
        → IsServerOver setup past old → past.history ≡ t.writes → SeesIdeal (means t) (means u) old new result
        → StepsRight setup past (with_history past u.writes) old new }
    ensures transits { (setup : Setup) (past : Past) (t u : Told) (old new : ServerState) (p : Partition) (q : Sequence) (now : Moment)
        (result : Result ReplicaState ServerRefused) → IsPast setup past → IsServerOver setup past old → past.history ≡ t.writes
        → Transits (means t) (means u) old new p q now result → StepsRight setup past (with_history past u.writes) old new }
    ensures downloads { (setup : Setup) (past : Past) (d e : DeepTold) (old new : ServerState) (p : Partition) (q : Sequence)
        (result : Result ℕ ServerRefused) → IsPast setup past → IsServerOver setup past old → past.files ≡ d.files
        → Downloads (deep_means d) (deep_means e) old.setup.schema old.table new.table p q result → InTable old new
        → StepsRight setup past (with_files past e.files) old new }
    ensures finds { (setup : Setup) (past : Past) (d e : DeepTold) (s : ServerState) (t : Segments) (p : Partition) (q : Sequence) (wanted : Header)
        (found : Option Header) → IsPast setup past → IsServerOver setup past s → past.files ≡ d.files
        → Downloads (deep_means d) (deep_means e) s.setup.schema s.table t p q (Err (BadFile wanted found)) → ⊥ }
    ensures crashes { (setup : Setup) (past : Past) (s : ServerState) → IsPast setup past → IsServerOver setup past s
        → StepsRight setup past past s (crashed s) × IsEmpty (crashed s) }
    ensures restarts { (setup : Setup) (past : Past) (t u : Told) (old new : ServerState) (result : Result ℕ ServerRefused) → IsPast setup past
        → IsServerOver setup past old → past.history ≡ t.writes → IsEmpty old → Restarts (means t) (means u) old new result
        → StepsRight setup past (with_history past u.writes) old new }
{}

/// The calls of its replicas step right: one consumes, is forced, is stopped, seals its rows, and takes an answer that was sent.
pub fn a_servers_replicas_step_right()
    ensures takes { (setup : Setup) (past : Past) (a b : Log) (old new : ServerState) (p : Partition) (q : Sequence) (max : ℕ) (now : Moment)
        (result : Result (Unit {0}) ServerRefused) → IsPast setup past → IsServerOver setup past old → past.log ≡ a
        → Takes (log_meaning a) (log_meaning b) old.table new.table p q max now result → InTable old new
        → StepsRight setup past (with_log past b) old new }
    ensures forces { (setup : Setup) (past : Past) (old new : ServerState) (p : Partition) (q : Sequence) (result : Result (Unit {0}) ServerRefused)
        → IsPast setup past → IsServerOver setup past old → InTable old new → Forces old.table new.table p q result
        → StepsRight setup past past old new }
    ensures stops { (setup : Setup) (past : Past) (old new : ServerState) (p : Partition) (q : Sequence) (result : Result (Unit {0}) ServerRefused)
        → IsPast setup past → IsServerOver setup past old → InTable old new → Stops old.table new.table p q result
        → StepsRight setup past past old new }
    ensures seals { (setup : Setup) (past : Past) (old new : ServerState) (p : Partition) (q : Sequence) (result : Result (Unit {0}) ServerRefused)
        → IsPast setup past → IsServerOver setup past old → InTable old new → Seals old.table new.table p q result
        → StepsRight setup past past old new }
    ensures replies { (setup : Setup) (past : Past) (old new : ServerState) (reply : Reply) (result : Bool) → IsPast setup past
        → IsServerOver setup past old → InTable old new → Has past.sent (sent.Reply reply) → (result, new.table) ≡ replied_in old.table reply
        → StepsRight setup past past old new }
{}

/// What a server asks is right and fresh, and is sent.
pub fn a_server_sends_what_is_right()
    ensures asks { (setup : Setup) (past : Past) (old new : ServerState) (p : Partition) (q : Sequence) (request : Request) → IsPast setup past
        → IsServerOver setup past old → AreDrawn past.sent old.numbers → length past.sent < 2 ^ 63 → new.setup ≡ old.setup
        → Asks old.numbers new.numbers old.table new.table p q (Ok request) → SendsRight setup past old new p q request }
    ensures asks_for { (setup : Setup) (past : Past) (old new : ServerState) (p : Partition) (q : Sequence) (request : Request) (millis : ℕ)
        → IsPast setup past → IsServerOver setup past old → AreDrawn past.sent old.numbers → length past.sent < 2 ^ 63 → new.setup ≡ old.setup
        → AsksFor old.numbers new.numbers millis old.table new.table p q (Ok request) → SendsRight setup past old new p q request }
{}
