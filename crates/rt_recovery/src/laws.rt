//! How a cluster that was started anew comes to rest. Each law stands on a function that does nothing: its clause is the law.
ghost use Rattle.std.specs.Prelude.{◌≡◌, ◌+◌, ◌*◌, ◌<◌, ◌≤◌, ℕ, Bool, List, [], Ok, true, false, length};
ghost use Rattle.rt_base.specs.declared.numbers.ControllerId.{ControllerId};
ghost use Rattle.rt_base.specs.declared.numbers.Instance.{Instance};
ghost use Rattle.rt_base.specs.declared.numbers.Partition.{Partition};
ghost use Rattle.rt_macros.specs.Doing.{Reached};
ghost use Rattle.rt_macros.specs.Settling.{ExchangeTurn, SegmentAt, Settles};
ghost use Rattle.rt_model.specs.Metadata.{metadata_of};
ghost use Rattle.rt_model.specs.Setup.{IsSetup};
ghost use Rattle.rt_model.specs.declared.setup.Setup.{Setup};
ghost use Rattle.rt_safety.specs.Runs.{Leads, Runs, Turn};
ghost use Rattle.rt_state.specs.declared.state.State.{State};
ghost use Rattle.rt_heal.specs.AtRest.{IsAtRest};
ghost use Rattle.rt_calm.specs.Again.{IsLeading};
ghost use Rattle.rt_calm.specs.Spent.{rounds_in_all};
ghost use Rattle.rt_recovery.specs.ByRows.{IsByRows};
ghost use Rattle.rt_recovery.specs.Fresh.{IsFresh};
ghost use Rattle.rt_recovery.specs.GoingOn.{AllGoOn};
ghost use Rattle.rt_recovery.specs.Healing.{rounds_after, Heals};
ghost use Rattle.rt_recovery.specs.Mending.{HasMended, Mends};
ghost use Rattle.rt_recovery.specs.Often.{SettlesOften};
ghost use Rattle.rt_recovery.specs.Restarting.{IsStartedAnew, StartsAnew};
ghost use Rattle.rt_recovery.specs.Retiring.{retirements_enough, HasRetired, LeavesOldOnes, Retires};
ghost use Rattle.rt_recovery.specs.Whole.{AnswersWhole, ComesToRest};

/// From any world of a run on that was started anew, `settle` answers `settled` as soon as it has more rounds than `rounds_in_all`. Every
/// server is up without a replica and no controller has a machine, one that is up believes that it leads, no fault of a store is planned,
/// and segments don't end by a time of 0 ms. Then each replica that reports does so by the row limit, at the one offset where its segment is
/// full; the first is told to commit, and all others are told HOLD only while that commit goes on, which takes no time. One `settle` may have
/// too few rounds for that: then several, one after the other, answer `settled` as soon as they have more in all.
#[tactic(auto, using(crate::proofs::Settled::settles_from_fresh, crate::proofs::Settled::settles_often))]
pub fn settle_ends_after_a_fresh_start()
    ensures once { (setup : Setup) (turns : List Turn) (paused : Bool) (rounds : ℕ) (w : State) (u : Reached) (settled : Bool) → IsSetup setup
        → Runs setup turns w → IsFresh w → w.store.faults.plan ≡ [] → w.deep.faults.plan ≡ [] → IsLeading w → 1 ≤ setup.table.millis
        → rounds_in_all w.setup w.log w.store.writes < rounds → Settles paused rounds w u (Ok settled) → settled ≡ true }
    ensures often { (setup : Setup) (turns : List Turn) (paused : Bool) (rounds times : ℕ) (w : State) (u : Reached) (settled : Bool)
        → IsSetup setup → Runs setup turns w → IsFresh w → w.store.faults.plan ≡ [] → w.deep.faults.plan ≡ [] → IsLeading w
        → 1 ≤ setup.table.millis → rounds_in_all w.setup w.log w.store.writes < times * rounds
        → SettlesOften paused rounds times w u (Ok settled) → settled ≡ true }
{}

/// What comes of a script that has each node crash, where it is up, and restart, and then the first controller lead: the cluster is
/// started anew, if no fault of the store is planned. All that was produced, put and written is there still but for the incarnations of the
/// servers, and no time has passed.
pub fn what_is_started_anew_is_fresh()
    ensures { (setup : Setup) (turns : List Turn) (w : State) (v : Reached) → IsSetup setup → Runs setup turns w
        → w.store.faults.plan ≡ [] → StartsAnew w v (Ok tt)
        → IsStartedAnew w v.world × ((more : List Turn) × Leads w more v.world) }
{}

/// From any world of a run on that was started anew a `settle` with more rounds than `rounds_in_all`, or several with more in all, leave all
/// servers at rest. And where each partition went on, with no committed segment between the two steps of its retirement, each still does,
/// and each query is answered whole: it misses nothing, and names all offsets of each partition from its mark up to the stream's end. For
/// each exchange leaves all partitions going on: what it writes is a commit up to its end, behind which the next segment is consumed.
pub fn what_was_started_anew_is_answered_whole()
    ensures exchanges { (setup : Setup) (turns : List Turn) (i : Instance) (s : SegmentAt) (busy : Bool) (w : State) (v : Reached) (told : Bool)
        → IsSetup setup → Runs setup turns w → IsByRows w → IsLeading w → w.store.faults.plan ≡ [] → AllGoOn w
        → ExchangeTurn i s busy w v (Ok told) → AllGoOn v.world }
    ensures once { (setup : Setup) (turns : List Turn) (rounds : ℕ) (w : State) (u : Reached) (settled : Bool) → IsSetup setup
        → Runs setup turns w → IsFresh w → w.store.faults.plan ≡ [] → w.deep.faults.plan ≡ [] → IsLeading w → 1 ≤ setup.table.millis
        → rounds_in_all w.setup w.log w.store.writes < rounds → Settles false rounds w u (Ok settled) → ComesToRest w u.world }
    ensures often { (setup : Setup) (turns : List Turn) (rounds times : ℕ) (w : State) (u : Reached) (settled : Bool) → IsSetup setup
        → Runs setup turns w → IsFresh w → w.store.faults.plan ≡ [] → w.deep.faults.plan ≡ [] → IsLeading w → 1 ≤ setup.table.millis
        → rounds_in_all w.setup w.log w.store.writes < times * rounds → SettlesOften false rounds times w u (Ok settled)
        → ComesToRest w u.world }
{}

/// What comes of a script that mends all partitions, one after the other, at a controller that is up: for each of them the grace passes
/// five times, and behind each time a repair goes on up to its end. The first may have been under way from before; of the others at most
/// three write. From any world of a run on in which no fault of the store is planned no partition needs a repair then. The nodes, the log
/// and the deep store are as they were.
pub fn mending_leaves_no_need_of_repair()
    ensures { (setup : Setup) (turns : List Turn) (w : State) (v : Reached) (c : ControllerId) → IsSetup setup → Runs setup turns w
        → w.store.faults.plan ≡ [] → Mends c w v (Ok tt)
        → HasMended w v.world × ((more : List Turn) × Leads w more v.world) }
{}

/// In each world of a run the committed segments that are listed and have no entries in the ideal state are those between the two steps of
/// a retirement: they were kept as long as the setup says.
pub fn segments_without_entries_are_old()
    ensures { (setup : Setup) (turns : List Turn) (w : State) → IsSetup setup → Runs setup turns w → LeavesOldOnes w }
{}

/// What comes of a script that retires old segments of all partitions, one after the other, at a controller that is up: for each of them
/// what is under way ends, and then retirements come up to the first that tells `nothing`. Where each partition came to that, from any
/// world of a run on in which no fault of the store is planned, no segment is between the two steps of its retirement then, and partitions
/// that needed no repair need none. The nodes, the log and the deep store are as they were. Each partition comes to `nothing` where there
/// are enough retirements: more than two for each listed segment, and one; and so with more than `retirements_enough`, whatever is listed.
pub fn retirements_up_to_nothing_leave_none_half_done()
    ensures leaves { (setup : Setup) (turns : List Turn) (w : State) (v : Reached) (c : ControllerId) (times : ℕ) → IsSetup setup
        → Runs setup turns w → w.store.faults.plan ≡ [] → Retires c times w v (Ok true)
        → HasRetired w v.world × ((more : List Turn) × Leads w more v.world) }
    ensures comes { (setup : Setup) (turns : List Turn) (w : State) (v : Reached) (c : ControllerId) (times : ℕ) (told : Bool) → IsSetup setup
        → Runs setup turns w → w.store.faults.plan ≡ []
        → ((p : Partition) → p.0 < w.setup.partitions → 2 * length (metadata_of w.store.writes p) + 1 < times)
        → Retires c times w v (Ok told) → told ≡ true }
    ensures always { (setup : Setup) (turns : List Turn) (w : State) (v : Reached) (c : ControllerId) (times : ℕ) (told : Bool) → IsSetup setup
        → Runs setup turns w → w.store.faults.plan ≡ [] → retirements_enough < times → Retires c times w v (Ok told) → told ≡ true }
{}

/// Every cluster heals. From any world of a run on in which no fault of a store is planned, a script that is made of the setup alone
/// leads to rest: each node crashes, where it is up, and restarts, and the first controller leads; the grace passes five times for each
/// partition, with a repair behind it; old segments are retired, up to a retirement that finds nothing to do, which comes before there were
/// more than `retirements_enough` of a partition; and then come `settle`s, of more rounds in all than `rounds_in_all`, a number made of the messages, the
/// commits and the ideal state. The last of them answers `settled`; all servers rest then, and each query is answered whole: it misses
/// nothing, and aggregates the rows of all messages from each partition's mark up to the stream's end. Segments don't end by a time of 0 ms.
pub fn every_cluster_heals()
    ensures settles { (setup : Setup) (turns : List Turn) (retirements lines rounds : ℕ) (w : State) (u : Reached) (settled : Bool) → IsSetup setup
        → Runs setup turns w → w.store.faults.plan ≡ [] → w.deep.faults.plan ≡ [] → 1 ≤ setup.table.millis
        → retirements_enough < retirements → (h : Heals retirements lines rounds w u settled) → rounds_after h < lines * rounds → settled ≡ true }
    ensures rests { (setup : Setup) (turns : List Turn) (retirements lines rounds : ℕ) (w : State) (u : Reached) (settled : Bool) → IsSetup setup
        → Runs setup turns w → w.store.faults.plan ≡ [] → w.deep.faults.plan ≡ [] → 1 ≤ setup.table.millis
        → retirements_enough < retirements → (h : Heals retirements lines rounds w u settled) → rounds_after h < lines * rounds → IsAtRest u.world }
    ensures whole { (setup : Setup) (turns : List Turn) (retirements lines rounds : ℕ) (w : State) (u : Reached) (settled : Bool) → IsSetup setup
        → Runs setup turns w → w.store.faults.plan ≡ [] → w.deep.faults.plan ≡ [] → 1 ≤ setup.table.millis
        → retirements_enough < retirements → (h : Heals retirements lines rounds w u settled) → rounds_after h < lines * rounds
        → AnswersWhole u.world }
{}
