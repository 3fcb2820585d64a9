//! What lies ahead of replicas, and what takes of it. Each law stands on a function that does nothing: its clause is the law.
ghost use Rattle.std.specs.Prelude.{◌≡◌, ◌+◌, ◌*◌, ◌<◌, ◌≤◌, ◌⊎◌, ℕ, Bool, Contains, List, [], Ok, true, false, length, map};
ghost use Rattle.rt_base.specs.declared.numbers.Instance.{Instance};
ghost use Rattle.rt_base.specs.declared.numbers.Moment.{Moment};
ghost use Rattle.rt_base.specs.declared.numbers.Offset.{Offset};
ghost use Rattle.rt_base.specs.declared.numbers.Partition.{Partition};
ghost use Rattle.rt_base.specs.declared.numbers.Sequence.{Sequence};
ghost use Rattle.rt_commit.specs.Changes.{offline_changes};
ghost use Rattle.rt_macros.specs.Doing.{Reached};
ghost use Rattle.rt_macros.specs.Settling.{ExchangeTurn, ReplicasOfAll, Round, SegmentAt, Settles};
ghost use Rattle.rt_model.specs.Completion.{goes, is_late, longest_time, patience, react, Completion, IsBeforePick};
ghost use Rattle.rt_model.specs.Ideal.{commit_step_of, set_offline_of};
ghost use Rattle.rt_model.specs.Setup.{IsSetup};
ghost use Rattle.rt_model.specs.declared.completion.Ask.{Ask};
ghost use Rattle.rt_model.specs.declared.completion.Ask.TheVariants.{CommitStart, Consumed};
ghost use Rattle.rt_model.specs.declared.completion.Reaction.TheVariants.{Answer};
ghost use Rattle.rt_model.specs.declared.completion.Said.TheVariants.{CommitContinue, Hold};
ghost use Rattle.rt_model.specs.declared.ideal_state.IdealEntry.{IdealEntry};
ghost use Rattle.rt_model.specs.declared.machine_state.MachineState.TheVariants.{Aborted, CommitterNotified, CommitterUploading};
ghost use Rattle.rt_model.specs.declared.request.Reason.{Reason};
ghost use Rattle.rt_model.specs.declared.setup.Setup.{Setup};
ghost use Rattle.rt_safety.specs.Runs.{Runs, Turn};
ghost use Rattle.rt_state.specs.IsSafeWorld.{IsSafeWorld};
ghost use Rattle.rt_state.specs.declared.state.State.{State};
ghost use Rattle.rt_stream.specs.Log.{Log, messages_of};
ghost use Rattle.rt_heal.specs.AtRest.{AreUp};
ghost use Rattle.rt_heal.specs.Calm.{AreAllCalm};
ghost use Rattle.rt_calm.specs.Again.{ahead_still, IsLeading};
ghost use Rattle.rt_calm.specs.Ahead.{ahead_in_world, most_ahead, most_ahead_of};
ghost use Rattle.rt_calm.specs.Commits.{commits_of};
ghost use Rattle.rt_calm.specs.Off.{IsHeld, IsTurnedAway, PutsOff, Succeeds, Waits};
ghost use Rattle.rt_calm.specs.Spent.{consuming_in, most_of, rounds_in_all, rounds_yet, Spends};
ghost use Rattle.rt_calm.specs.Waiting.{GoesOn, HoldsOrStays, WaitsFor};

/// A machine that waits for its committer, from COMMIT to the end of its job, stays as it is whatever another replica asks, unless that
/// one is told HOLD; and the committer's CommitStart at its offset, up to the deadline, is told to go on. So a commit that goes on in
/// rounds in which nobody is told HOLD comes to its job.
#[tactic(auto, using(crate::proofs::Waiting::others_stay, crate::proofs::Waiting::own_starts))]
pub fn a_machine_waits_for_its_committer()
    ensures others { (m : Completion) (i : Instance) (what : Ask) (now : Moment) → WaitsFor m.state → (i.0 ≡ m.winner.0 → ⊥)
        → HoldsOrStays m (react m i what now) }
    ensures starts { (m : Completion) (now : Moment) → m.state ≡ CommitterNotified → is_late m now ≡ false → m.seen.meta.start.0 < m.offset.0
        → react m m.winner (CommitStart m.offset) now ≡ (Answer CommitContinue, goes m CommitterUploading) }
{}

/// What time does to a machine that makes replicas hold. Past its deadline it ends at the next message, which is told HOLD; and before a
/// pick it holds nobody any more once it has waited so long for the other reports: a report past the segment's start is told COMMIT, or
/// CATCH_UP to an offset ahead of it. No deadline is ever later than the longest time from now on (clause `lasts`).
#[tactic(auto, using(crate::proofs::Picking::late_ends, crate::proofs::Picking::waited_picks, crate::proofs::Lasting::react_lasts))]
pub fn a_machine_that_has_waited_picks_or_ends()
    ensures ends { (m : Completion) (i : Instance) (what : Ask) (now : Moment) → is_late m now ≡ true
        → react m i what now ≡ (Answer Hold, goes m Aborted) }
    ensures picks { (m : Completion) (i : Instance) (x : Offset) (reason : Reason) (now : Moment) → IsBeforePick m.state
        → m.made.0 + patience < now.0 → m.seen.meta.start.0 < x.0 → Contains (map (λ r. r.instance) m.reporters) i
        → GoesOn x (react m i (Consumed x reason) now).0 }
    ensures lasts { (m : Completion) (i : Instance) (what : Ask) (now : Moment) → m.made.0 ≤ now.0 → m.deadline.0 ≤ now.0 + longest_time
        → (react m i what now).1.deadline.0 ≤ now.0 + longest_time }
{}

/// In each run the exchange of a replica, as `settle` makes it, puts the replica off, by HOLD, NOT_LEADER or FAILED, or leaves less
/// ahead: what a controller answers fits what it was asked, and leads on. COMMIT and KEEP name the offset that was reported, and
/// CATCH_UP one ahead of it, so that a replica asks again only behind messages that it takes. Nothing is written but where a commit is
/// made, or a stop processed, or the replica put off; and whatever is written, a commit takes one of those that its partition's messages
/// leave, a stop that changes anything one of the CONSUMING entries, so that fewer writes are left.
pub fn an_answer_puts_off_or_leaves_less_ahead()
    ensures less { (setup : Setup) (turns : List Turn) (w : State) (v : Reached) (instance : Instance) (segment : SegmentAt) → IsSetup setup
        → Runs setup turns w → ExchangeTurn instance segment false w v (Ok true)
        → PutsOff v ⊎ (ahead_in_world v.world < ahead_in_world w) }
    ensures writes { (setup : Setup) (turns : List Turn) (w : State) (v : Reached) (instance : Instance) (segment : SegmentAt) (told : Bool)
        → IsSetup setup → Runs setup turns w → ExchangeTurn instance segment false w v (Ok told)
        → PutsOff v ⊎ Succeeds v ⊎ (v.world.store.writes ≡ w.store.writes) }
    ensures spends { (setup : Setup) (turns : List Turn) (w : State) (v : Reached) (instance : Instance) (segment : SegmentAt) (told : Bool)
        → IsSetup setup → Runs setup turns w → ExchangeTurn instance segment false w v (Ok told)
        → Spends w.setup w.log w.store.writes v.world.store.writes }
{}

/// In each run the replicas' part of a round of `settle` puts one of them off, or leaves less ahead if anything happened in it, whether
/// the run is paused or not: batches and builds do as exchanges do. So does a whole round where all servers are up, have seen the
/// present ideal state, and have nothing to move and no file to get, and no fault of the store is planned.
pub fn replicas_are_put_off_or_leave_less_ahead()
    ensures replicas { (setup : Setup) (turns : List Turn) (paused : Bool) (w : State) (v : Reached) → IsSetup setup → Runs setup turns w
        → ReplicasOfAll paused false w v (Ok true) → PutsOff v ⊎ (ahead_in_world v.world < ahead_in_world w) }
    ensures rounds { (setup : Setup) (turns : List Turn) (paused : Bool) (w : State) (v : Reached) → IsSetup setup → Runs setup turns w
        → AreUp w → w.store.faults.plan ≡ [] → AreAllCalm w → Round paused w v (Ok true)
        → PutsOff v ⊎ (ahead_in_world v.world < ahead_in_world w) }
{}

/// From any world of a run on in which all servers are up and no fault of a store is planned, one round of `settle` leaves each server
/// calm, unless it puts a replica off, or a commit is made or a stop processed in it. So `settle` answers `settled` as soon as it has two
/// rounds more than what lies ahead at most by the ideal state, unless a replica is told HOLD, NOT_LEADER or FAILED, COMMIT_SUCCESS or
/// PROCESSED. Replicas may ask as they like, catch up, begin to commit, keep and discard.
pub fn settle_ends_where_nobody_is_put_off_or_done()
    ensures calms { (setup : Setup) (turns : List Turn) (paused : Bool) (w : State) (v : Reached) (told : Bool) → IsSetup setup
        → Runs setup turns w → AreUp w → w.store.faults.plan ≡ [] → w.deep.faults.plan ≡ [] → Round paused w v (Ok told)
        → PutsOff v ⊎ Succeeds v ⊎ AreAllCalm v.world }
    ensures settles { (setup : Setup) (turns : List Turn) (paused : Bool) (rounds : ℕ) (w : State) (u : Reached) (settled : Bool)
        → IsSetup setup → Runs setup turns w → AreUp w → w.store.faults.plan ≡ [] → w.deep.faults.plan ≡ []
        → most_ahead w + 1 < rounds → Settles paused rounds w u (Ok settled) → PutsOff u ⊎ Succeeds u ⊎ (settled ≡ true) }
{}

/// A partition has at most as many commits as messages: their ranges tile its offsets from 0 on, those of deleted segments too, and
/// each holds one message at least. So commits are made but so often while nothing is produced.
#[tactic(auto, using(crate::proofs::Commits::commits_within))]
pub fn a_partition_has_at_most_as_many_commits_as_messages()
    ensures { (w : State) (p : Partition) → IsSafeWorld w → p.0 < w.setup.partitions
        → commits_of w.store.writes p ≤ length (messages_of w.log p) }
{}

/// A commit's step of the ideal state adds an entry for each replica of the next segment at most, and what can lie ahead of those; a stop's
/// step adds nothing, and where it changes anything one entry less is CONSUMING.
#[tactic(auto, using(crate::proofs::Entries::commit_most, crate::proofs::Entries::commit_consumes, crate::proofs::Entries::offline_most, crate::proofs::Entries::offline_consumes))]
pub fn a_step_of_the_ideal_state_adds_no_more_than_its_replicas()
    ensures commit { (log : Log) (es : List IdealEntry) (p : Partition) (s : Sequence) (next : List Instance)
        → most_ahead_of log (commit_step_of es p s next) ≤ length next * most_of log p + most_ahead_of log es }
    ensures consuming { (es : List IdealEntry) (p : Partition) (s : Sequence) (next : List Instance)
        → consuming_in (commit_step_of es p s next) ≤ length next + consuming_in es }
    ensures stop { (log : Log) (es : List IdealEntry) (p : Partition) (s : Sequence) (i : Instance)
        → most_ahead_of log (set_offline_of es p s i) ≡ most_ahead_of log es }
    ensures stopped { (p : Partition) (s : Sequence) (i : Instance) (es : List IdealEntry) → offline_changes es p s i ≡ true
        → consuming_in (set_offline_of es p s i) < consuming_in es }
{}

/// From any world of a run on in which all servers are up and no fault of a store is planned, `settle` answers `settled` as soon as it has
/// more rounds than `rounds_yet`, unless a replica is told HOLD, NOT_LEADER or FAILED. That number is made of the messages, the commits
/// and the ideal state: each commit that is left takes a message of its partition, and makes as many CONSUMING entries as there are
/// replicas; each of these can be turned OFFLINE once; and between two such writes all that lies ahead is done in as many rounds.
pub fn settle_ends_where_nobody_is_put_off()
    ensures { (setup : Setup) (turns : List Turn) (paused : Bool) (rounds : ℕ) (w : State) (u : Reached) (settled : Bool) → IsSetup setup
        → Runs setup turns w → AreUp w → w.store.faults.plan ≡ [] → w.deep.faults.plan ≡ []
        → rounds_yet w.setup w.log w.store.writes < rounds → Settles paused rounds w u (Ok settled) → PutsOff u ⊎ (settled ≡ true) }
{}

/// FAILED is paid for: in each run an exchange, as `settle` makes it, that writes nothing leaves less of what lies ahead and what may lie ahead
/// again, unless the replica is told HOLD, or NOT_LEADER where no controller that is up believes that it leads. All servers are up and calm,
/// and no fault of a store is planned. Something may lie ahead again of a committer for which its segment's machine doesn't wait, and of the
/// replicas of a segment whose machine has ended or has read another version of its node than the present one. COMMIT makes a machine wait
/// for its committer, and no other replica ends that but by HOLD; a machine that fails a job is gone with it, and one that is made has read
/// the present version.
pub fn an_answer_makes_wait_or_leaves_less_ahead_still()
    ensures { (setup : Setup) (turns : List Turn) (w : State) (v : Reached) (instance : Instance) (segment : SegmentAt) → IsSetup setup
        → Runs setup turns w → AreUp w → w.store.faults.plan ≡ [] → w.deep.faults.plan ≡ [] → AreAllCalm w
        → ExchangeTurn instance segment false w v (Ok true) → v.world.store.writes ≡ w.store.writes
        → Waits w v ⊎ (ahead_still v.world < ahead_still w) }
{}

/// So FAILED doesn't keep `settle` from ending: from any world of a run on in which all servers are up and no fault of a store is planned, it
/// answers `settled` as soon as it has more rounds than `rounds_in_all`, unless a replica is told HOLD or NOT_LEADER; and where a controller
/// that is up believes that it leads, unless one is told HOLD.
pub fn settle_ends_where_nobody_is_told_to_hold()
    ensures told { (setup : Setup) (turns : List Turn) (paused : Bool) (rounds : ℕ) (w : State) (u : Reached) (settled : Bool) → IsSetup setup
        → Runs setup turns w → AreUp w → w.store.faults.plan ≡ [] → w.deep.faults.plan ≡ []
        → rounds_in_all w.setup w.log w.store.writes < rounds → Settles paused rounds w u (Ok settled)
        → IsHeld u ⊎ IsTurnedAway u ⊎ (settled ≡ true) }
    ensures led { (setup : Setup) (turns : List Turn) (paused : Bool) (rounds : ℕ) (w : State) (u : Reached) (settled : Bool) → IsSetup setup
        → Runs setup turns w → AreUp w → w.store.faults.plan ≡ [] → w.deep.faults.plan ≡ [] → IsLeading w
        → rounds_in_all w.setup w.log w.store.writes < rounds → Settles paused rounds w u (Ok settled) → IsHeld u ⊎ (settled ≡ true) }
{}
