//! What is whole once there is nothing left to do. Each law stands on a function that does nothing: its clause is the law.
ghost use Rattle.std.specs.Prelude.{◌≡◌, ◌+◌, ◌<◌, ◌≤◌, ◌⊎◌, ℕ, Bool, List, [], Some, Ok, length, slice_get, true, false};
ghost use Rattle.rt_base.specs.declared.numbers.Instance.{Instance};
ghost use Rattle.rt_base.specs.declared.numbers.Moment.{Moment};
ghost use Rattle.rt_base.specs.declared.numbers.Offset.{Offset};
ghost use Rattle.rt_base.specs.declared.numbers.Partition.{Partition};
ghost use Rattle.rt_base.specs.declared.numbers.Sequence.{Sequence};
ghost use Rattle.rt_broker.specs.Asking.{Asking};
ghost use Rattle.rt_events.specs.declared.event.Event.TheVariants.{Build, Consume, Transit};
ghost use Rattle.rt_events.specs.declared.outcome.Outcome.{Outcome};
ghost use Rattle.rt_lists.specs.Members.{Has};
ghost use Rattle.rt_macros.specs.Doing.{Reached};
ghost use Rattle.rt_macros.specs.Querying.{Queries};
ghost use Rattle.rt_macros.specs.Settling.{Round, Settles};
ghost use Rattle.rt_model.specs.Checked.{IsQuery};
ghost use Rattle.rt_model.specs.Entries.{entries_of};
ghost use Rattle.rt_model.specs.Ideal.{mode_of};
ghost use Rattle.rt_model.specs.Metadata.{metadata_of, sequences_of, BecameFinal, IsInProgress};
ghost use Rattle.rt_model.specs.Plan.{plan_of};
ghost use Rattle.rt_model.specs.Setup.{IsSetup};
ghost use Rattle.rt_model.specs.declared.answer.Answer.{Answer};
ghost use Rattle.rt_model.specs.declared.ideal_state.IdealEntry.{IdealEntry};
ghost use Rattle.rt_model.specs.declared.ideal_state.Mode.TheVariants.{Consuming, Online};
ghost use Rattle.rt_model.specs.declared.node.Listed.{Listed};
ghost use Rattle.rt_model.specs.declared.piece.Piece.{Piece};
ghost use Rattle.rt_model.specs.declared.query.Query.{Query};
ghost use Rattle.rt_model.specs.declared.reply.Reply.{Reply};
ghost use Rattle.rt_model.specs.declared.reply.ReplyStatus.TheVariants.{CatchUp, Discard, Processed};
ghost use Rattle.rt_model.specs.declared.request.Request.{Request};
ghost use Rattle.rt_model.specs.declared.request.RequestKind.TheVariants.{Stopped};
ghost use Rattle.rt_model.specs.declared.sent.Sent.TheVariants as sent;
ghost use Rattle.rt_model.specs.declared.setup.Setup.{Setup};
ghost use Rattle.rt_past.specs.IsPast.{IsPast};
ghost use Rattle.rt_past.specs.Past.{Past};
ghost use Rattle.rt_past.specs.Segments.{HadEntry};
ghost use Rattle.rt_state.specs.IsSafe.{past_of};
ghost use Rattle.rt_state.specs.IsSafeWorld.{IsSafeWorld};
ghost use Rattle.rt_state.specs.Queries.{IsAnswerOf};
ghost use Rattle.rt_safety.specs.Runs.{Turn, Leads, Runs};
ghost use Rattle.rt_state.specs.declared.state.State.{State};
ghost use Rattle.rt_nodes.specs.declared.server_node.ServerNode.{ServerNode};
ghost use Rattle.rt_server.specs.Calls.{targets_of};
ghost use Rattle.rt_server.specs.Transition.{transit_due};
ghost use Rattle.rt_stream.specs.Log.{messages_of};
ghost use Rattle.rt_world.specs.Reading.{is_ready_at};
ghost use Rattle.rt_world.specs.Step.{Steps};
ghost use Rattle.rt_heal.specs.Answered.{IsAnsweredWhole, IsAskedNow, whole_from};
ghost use Rattle.rt_heal.specs.Asks.{Asks};
ghost use Rattle.rt_heal.specs.AtRest.{AreUp, IsAtRest, IsConsumedAt, IsServedAt};
ghost use Rattle.rt_heal.specs.Calm.{AreAllCalm};
ghost use Rattle.rt_heal.specs.Dropped.{AreDroppedOut, IsOut};
ghost use Rattle.rt_heal.specs.GivenUp.{IsConsumable};
ghost use Rattle.rt_heal.specs.Led.{IsLed};
ghost use Rattle.rt_heal.specs.Left.{left_in_world, most_left, CanAllFollow};
ghost use Rattle.rt_heal.specs.Mended.{GoesOn, NeedsNoRepair};
ghost use Rattle.rt_heal.specs.Planned.{AreOnline, IsGivenWhole, NoneDropped};
ghost use Rattle.rt_heal.specs.Reachable.{ComesTo};
ghost use Rattle.rt_heal.specs.Turned.{IsTurned, NoneHalfRetired};

/// Where a repair that begins finds nothing to do, and no grace holds it back, the partition goes on: its committed segments tile
/// the offsets from the mark on up to where the last one starts, which is in progress and which an instance is to consume. So it is
/// over every right past, but that the last sequences of all are left alone; and in every safe world.
#[tactic(auto, using(crate::proofs::Mended::goes_on, crate::proofs::Wholes::unneeding_goes_on))]
pub fn a_partition_without_need_of_repair_goes_on()
    ensures pasts { (setup : Setup) (past : Past) (now : Moment) (p : Partition) → IsSetup setup → IsPast setup past → p.0 < setup.partitions
        → sequences_of past.history p ≤ 4294967290 → NeedsNoRepair setup past.history now p → GoesOn past.history p }
    ensures worlds { (w : State) (p : Partition) → IsSafeWorld w → p.0 < w.setup.partitions
        → NeedsNoRepair w.setup w.store.writes w.moment p → GoesOn w.store.writes p }
{}

/// After a round of `settle` in which nothing happened but that servers saw the ideal state, every server rests: it has seen the
/// present ideal state, no transition is due and no file wanted, and its replicas have no message to take and neither build nor
/// ask. All servers were up, no fault of the store was planned, and there was a controller to ask.
pub fn a_quiet_round_leaves_all_at_rest()
    ensures { (w : State) (v : Reached) → IsSafeWorld w → AreUp w → w.store.faults.plan ≡ [] → IsLed w → Round false w v (Ok false)
        → IsAtRest v.world }
{}

/// At rest each instance has what the ideal state asks of it. What it has ONLINE is there and committed, and it serves it whole; of a
/// segment in progress that it is to consume it has taken every message, and serves them, unless its replica has dropped its rows.
#[tactic(auto, using(crate::proofs::Wholes::served_whole, crate::proofs::Wholes::consumed_up_to))]
pub fn at_rest_each_instance_has_what_is_asked()
    ensures online { (w : State) → IsSafeWorld w → IsAtRest w → (p : Partition) (q : Sequence) (i : Instance)
        → mode_of (entries_of w.store.writes) p q i ≡ Some Online → IsServedAt w p q i }
    ensures consuming { (w : State) → IsSafeWorld w → IsAtRest w → (p : Partition) (q : Sequence) (i : Instance) (l : Listed)
        → Has (metadata_of w.store.writes p) l → l.sequence ≡ q → IsInProgress l.seen.meta.status
        → mode_of (entries_of w.store.writes) p q i ≡ Some Consuming → IsConsumedAt w p l i }
{}

/// In each world of each run the entries of a committed segment are ONLINE as soon as the next segment has entries. So where a
/// partition goes on, each of its committed segments that has entries is ONLINE at some instance: all of them, unless one is between
/// the two steps of its retirement.
#[tactic(auto, using(crate::proofs::TurnedRuns::runs_turned, crate::proofs::TurnedRuns::leads_turned, crate::proofs::Online::are_online))]
pub fn committed_segments_are_turned_online()
    ensures runs { (setup : Setup) (turns : List Turn) (w : State) → IsSetup setup → Runs setup turns w → IsTurned w }
    ensures goes_on { (from : State) (turns : List Turn) (to : State) → IsSafeWorld from → IsTurned from → Leads from turns to → IsTurned to }
    ensures online { (w : State) (p : Partition) → IsSafeWorld w → IsTurned w → p.0 < w.setup.partitions → GoesOn w.store.writes p
        → NoneHalfRetired w.store.writes p → AreOnline w.store.writes p }
{}

/// In each world of each run what an instance is to consume can be consumed: the segment of each CONSUMING entry is listed, in
/// progress or committed. It isn't deleted, nor given up, since that is done only where nobody is to consume it.
#[tactic(auto, using(crate::proofs::GivenUp::consumable))]
pub fn what_is_to_be_consumed_can_be()
    ensures { (setup : Setup) (turns : List Turn) (w : State) (e : IdealEntry) → IsSetup setup → Runs setup turns w
        → Has (entries_of w.store.writes) e → e.mode ≡ Consuming → IsConsumable w.store.writes e.partition e.sequence }
{}

/// A transition that was made isn't due any more: in each world of each run, where the server has seen the present ideal state and no
/// fault of the store is planned.
pub fn a_transition_is_made_once()
    ensures { (setup : Setup) (turns : List Turn) (w y : State) (i : Instance) (n m : ServerNode) (p : Partition) (q : Sequence)
        (o : Outcome) → IsSetup setup → Runs setup turns w → w.store.faults.plan ≡ [] → slice_get w.servers i.0 ≡ Some n
        → n.server.table.targets ≡ targets_of n.server.numbers.instance (entries_of w.store.writes) → Steps w (Transit i p q) y (Ok o)
        → slice_get y.servers i.0 ≡ Some m → transit_due m.server.table p q ≡ false }
{}

/// A replica has dropped its rows only where its segment has ended, by a commit or given up, or where its instance has nothing of it
/// to consume any more; and that lasts. In each run DISCARD is told of segments alone that have ended, and to a stop PROCESSED once
/// its sender is out so. So at rest no replica of a segment in progress has dropped its rows that is to consume it.
#[tactic(auto, using(crate::proofs::Dropped::discards_end, crate::proofs::Dropped::stops_out))]
pub fn a_replica_that_dropped_its_rows_is_out()
    ensures discards { (setup : Setup) (turns : List Turn) (w : State) (r : Reply) → IsSetup setup → Runs setup turns w
        → Has w.sent (sent.Reply r) → r.status ≡ Discard → BecameFinal w.store.writes r.partition r.sequence.0 }
    ensures stops { (setup : Setup) (turns : List Turn) (w : State) (q : Request) (r : Reply) → IsSetup setup → Runs setup turns w
        → Has w.sent (sent.Request q) → Has w.sent (sent.Reply r) → q.number ≡ r.number → q.kind ≡ Stopped → r.status ≡ Processed
        → IsOut w.store.writes q.partition q.sequence q.number.instance }
    ensures replicas { (setup : Setup) (turns : List Turn) (w : State) → IsSetup setup → Runs setup turns w → AreDroppedOut w }
    ensures lasts { (setup : Setup) (turns : List Turn) (w : State) (more : List Turn) (v : State) → IsSetup setup → Runs setup turns w
        → Leads w more v → (p : Partition) (q : Sequence) (i : Instance) → HadEntry w.store.writes p q → IsOut w.store.writes p q i
        → IsOut v.store.writes p q i }
    ensures rests { (setup : Setup) (turns : List Turn) (w : State) → IsSetup setup → Runs setup turns w → IsAtRest w
        → (p : Partition) → p.0 < w.setup.partitions → NoneDropped w p }
{}

/// At rest each piece of a partition's plan is served whole by a replica, the committed ones from their start to their end and the
/// last one up to the stream's end, with the stream's rows; and they tile the partition's offsets from the mark on. The partition goes
/// on, each committed segment is ONLINE somewhere, and no replica has dropped its rows that is to consume.
#[tactic(auto, using(crate::proofs::Planned::pieces_given))]
pub fn at_rest_each_piece_is_served_whole()
    ensures { (w : State) → IsSafeWorld w → IsAtRest w → (p : Partition) → p.0 < w.setup.partitions → GoesOn w.store.writes p
        → AreOnline w.store.writes p → NoneDropped w p → (piece : Piece) → Has (plan_of p (metadata_of w.store.writes p)) piece
        → IsGivenWhole w piece }
{}

/// What is asked of a world at rest is answered whole: where each partition was routed by its present plan, and what was noted of
/// servers is what they give, the answer misses nothing, and names all offsets of each partition from its mark up to the stream's end.
pub fn at_rest_an_answer_is_whole()
    ensures missing { (w : State) → IsSafeWorld w → IsAtRest w → ((p : Partition) → p.0 < w.setup.partitions → GoesOn w.store.writes p)
        → ((p : Partition) → p.0 < w.setup.partitions → AreOnline w.store.writes p)
        → ((p : Partition) → p.0 < w.setup.partitions → NoneDropped w p) → (a : Asking) → IsAskedNow w a w.setup.partitions
        → (answer : Answer) → IsAnswerOf a answer → answer.missing ≡ [] }
    ensures ranges { (w : State) → IsSafeWorld w → IsAtRest w → ((p : Partition) → p.0 < w.setup.partitions → GoesOn w.store.writes p)
        → (a : Asking) → IsAskedNow w a w.setup.partitions → (answer : Answer) → IsAnswerOf a answer → answer.missing ≡ []
        → answer.ranges ≡ whole_from w 0 w.setup.partitions }
{}

/// A query over a world at rest is answered whole: it misses nothing, names all offsets of each partition from its mark up to the
/// stream's end, and aggregates the rows of all messages there. No fault of the store was planned. So it is after a quiet round of any
/// run, where no partition needs a repair and no segment is between the two steps of its retirement.
pub fn at_rest_a_query_is_answered_whole()
    ensures resting { (w : State) → IsSafeWorld w → IsAtRest w → w.store.faults.plan ≡ []
        → ((p : Partition) → p.0 < w.setup.partitions → GoesOn w.store.writes p)
        → ((p : Partition) → p.0 < w.setup.partitions → AreOnline w.store.writes p)
        → ((p : Partition) → p.0 < w.setup.partitions → NoneDropped w p) → (query : Query) (v : Reached) (answer : Answer)
        → IsQuery w.setup.schema query → Queries query w v (Ok answer) → IsAnsweredWhole w query answer }
    ensures settled { (setup : Setup) (turns : List Turn) (w : State) (v : Reached) → IsSetup setup → Runs setup turns w → AreUp w
        → w.store.faults.plan ≡ [] → IsLed w → Round false w v (Ok false)
        → ((p : Partition) → p.0 < v.world.setup.partitions → NeedsNoRepair v.world.setup v.world.store.writes v.world.moment p)
        → ((p : Partition) → p.0 < v.world.setup.partitions → NoneHalfRetired v.world.store.writes p)
        → (query : Query) (x : Reached) (answer : Answer) → IsQuery v.world.setup.schema query → Queries query v.world x (Ok answer)
        → IsAnsweredWhole v.world query answer }
{}

/// Of what is left to a world's replicas until they ask or rest, in messages and steps, each batch that is due for one takes
/// something, and so does each build. Each replica that is sent to a target can come to it: the target lies within the log, and before
/// the last message below it come fewer rows than a segment has at most.
pub fn a_batch_and_a_build_leave_less_to_do()
    ensures consumes { (w y : State) (i : Instance) (p : Partition) (q : Sequence) (max : ℕ) (outcome : Outcome) → IsSafeWorld w
        → CanAllFollow w → 0 < max → is_ready_at w i p q ≡ true → Steps w (Consume i p q max) y (Ok outcome)
        → left_in_world y < left_in_world w }
    ensures builds { (w y : State) (i : Instance) (p : Partition) (q : Sequence) (outcome : Outcome) → IsSafeWorld w → CanAllFollow w
        → Steps w (Build i p q) y (Ok outcome) → left_in_world y < left_in_world w }
{}

/// In each world of each run each CATCH_UP names an offset within the log to which a replica of the segment can come: before the last
/// message below it come fewer rows than a segment has at most, since another one came there. So it is with the end of each commit. So
/// each replica that is sent to a target, by CATCH_UP or by a commit, can come to it.
pub fn each_replica_can_come_to_its_target()
    ensures catches { (setup : Setup) (turns : List Turn) (w : State) (r : Reply) (x : Offset) → IsSetup setup → Runs setup turns w
        → Has w.sent (sent.Reply r) → r.status ≡ CatchUp x → x.0 ≤ length (messages_of w.log r.partition) }
    ensures comes { (setup : Setup) (turns : List Turn) (w : State) (r : Reply) (x : Offset) → IsSetup setup → Runs setup turns w
        → Has w.sent (sent.Reply r) → r.status ≡ CatchUp x → ComesTo w.setup (past_of w) r.partition r.sequence x }
    ensures follows { (setup : Setup) (turns : List Turn) (w : State) → IsSetup setup → Runs setup turns w → CanAllFollow w }
{}

/// Each round of `settle` in which anything happens and no replica asks a controller leaves less to do, whether the run is paused or
/// not; so `settle` answers `settled` as soon as it has more rounds than there are messages and steps left, unless a replica asks. So
/// it does in any case where no controller is up. All servers are up and have nothing to move, no fault of the store is planned, and
/// each replica that is sent to a target can come to it: so it is in each world of each run (`run_rounds`, `run_settles`).
pub fn settle_ends_where_no_replica_asks()
    ensures rounds { (paused : Bool) (w : State) (v : Reached) → IsSafeWorld w → AreUp w → w.store.faults.plan ≡ [] → AreAllCalm w
        → CanAllFollow w → Round paused w v (Ok true) → Asks w v ⊎ (left_in_world v.world < left_in_world w) }
    ensures settles { (paused : Bool) (rounds : ℕ) (w : State) (v : Reached) (settled : Bool) → IsSafeWorld w → AreUp w
        → w.store.faults.plan ≡ [] → AreAllCalm w → CanAllFollow w → left_in_world w < rounds
        → Settles paused rounds w v (Ok settled) → Asks w v ⊎ (settled ≡ true) }
    ensures run_rounds { (setup : Setup) (turns : List Turn) (paused : Bool) (w : State) (v : Reached) → IsSetup setup
        → Runs setup turns w → AreUp w → w.store.faults.plan ≡ [] → AreAllCalm w → Round paused w v (Ok true)
        → Asks w v ⊎ (left_in_world v.world < left_in_world w) }
    ensures run_settles { (setup : Setup) (turns : List Turn) (paused : Bool) (rounds : ℕ) (w : State) (v : Reached) (settled : Bool)
        → IsSetup setup → Runs setup turns w → AreUp w → w.store.faults.plan ≡ [] → AreAllCalm w
        → left_in_world w < rounds → Settles paused rounds w v (Ok settled) → Asks w v ⊎ (settled ≡ true) }
{}

/// From any world of a run on in which all servers are up and no fault of a store is planned, one round of `settle` leaves each server
/// calm, unless a replica asks in it: it has seen the present ideal state, and has nothing to move and no file to get. So no more is
/// left than all messages of its partition, and a step, for each entry of the ideal state; and `settle` answers `settled` as soon as it
/// has two rounds more than that, unless a replica asks a controller.
pub fn a_round_leaves_all_servers_calm()
    ensures calms { (setup : Setup) (turns : List Turn) (paused : Bool) (w : State) (v : Reached) (told : Bool) → IsSetup setup
        → Runs setup turns w → AreUp w → w.store.faults.plan ≡ [] → w.deep.faults.plan ≡ [] → Round paused w v (Ok told)
        → Asks w v ⊎ AreAllCalm v.world }
    ensures leaves { (setup : Setup) (turns : List Turn) (paused : Bool) (w : State) (v : Reached) (told : Bool) → IsSetup setup
        → Runs setup turns w → AreUp w → w.store.faults.plan ≡ [] → w.deep.faults.plan ≡ [] → Round paused w v (Ok told)
        → Asks w v ⊎ (left_in_world v.world ≤ most_left w) }
    ensures settles { (setup : Setup) (turns : List Turn) (paused : Bool) (rounds : ℕ) (w : State) (u : Reached) (settled : Bool)
        → IsSetup setup → Runs setup turns w → AreUp w → w.store.faults.plan ≡ [] → w.deep.faults.plan ≡ []
        → most_left w + 1 < rounds → Settles paused rounds w u (Ok settled) → Asks w u ⊎ (settled ≡ true) }
{}
