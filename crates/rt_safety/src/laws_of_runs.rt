//! The laws of a cluster's runs, whatever their turns are: each stands on a function that does nothing, and its clause is the
//! law. They hold under losses, repeats, crashes, faults of the stores and rival leaders, since each of these is a turn, or a
//! turn that isn't taken.
ghost use Rattle.std.specs.Prelude.{◌≡◌, ◌<◌, List};
ghost use Rattle.rt_base.specs.declared.numbers.Partition.{Partition};
ghost use Rattle.rt_base.specs.declared.numbers.Sequence.{Sequence};
ghost use Rattle.rt_controller.specs.Right.{IsPossibleStatus};
ghost use Rattle.rt_lists.specs.Members.{Has};
ghost use Rattle.rt_model.specs.Setup.{IsSetup};
ghost use Rattle.rt_model.specs.declared.query.Query.{Query};
ghost use Rattle.rt_model.specs.declared.reply.Reply.{Reply};
ghost use Rattle.rt_model.specs.declared.seg_meta.SeenMeta.{SeenMeta};
ghost use Rattle.rt_model.specs.declared.sent.Sent.TheVariants as sent;
ghost use Rattle.rt_model.specs.declared.setup.Setup.{Setup};
ghost use Rattle.rt_past.specs.Segments.{WasDone};
ghost use Rattle.rt_state.specs.IsSafeWorld.{IsSafeWorld};
ghost use Rattle.rt_safety.specs.GoesOn.{GoesOn};
ghost use Rattle.rt_safety.specs.Later.{KeepsCommitted};
ghost use Rattle.rt_safety.specs.Produced.{AreAsked, appended, asked_in};
ghost use Rattle.rt_safety.specs.Runs.{Turn, Leads, Runs};
ghost use Rattle.rt_state.specs.declared.state.State.{State};

/// Every world of every run of a cluster is safe, and so is each world to which a safe one goes on.
#[tactic(auto, using(crate::proofs::Later::runs_are_safe, crate::proofs::Runs::leads_safe))]
pub fn every_world_of_every_run_is_safe()
    ensures runs { (setup : Setup) (turns : List Turn) (w : State) → IsSetup setup → Runs setup turns w → IsSafeWorld w }
    ensures goes_on { (from : State) (turns : List Turn) (to : State) → IsSafeWorld from → Leads from turns to → IsSafeWorld to }
{}

/// Nothing that was produced, written, put or sent is ever lost or changed: so a commit that was written stays written, no
/// partition's mark falls, and a range that was committed stays so until it lies below the mark.
#[tactic(auto, using(crate::proofs::Later::leads_on, crate::proofs::Later::done_stays))]
pub fn a_run_only_adds()
    ensures adds { (from : State) (turns : List Turn) (to : State) → IsSafeWorld from → Leads from turns to → GoesOn from to }
    ensures done { (from : State) (turns : List Turn) (to : State) (p : Partition) (q : Sequence) (done : SeenMeta) → IsSafeWorld from
        → Leads from turns to → WasDone from.store.writes p q done → WasDone to.store.writes p q done }
    ensures committed { (from : State) (turns : List Turn) (to : State) (p : Partition) → IsSafeWorld from → p.0 < from.setup.partitions
        → Leads from turns to → KeepsCommitted from.store.writes to.store.writes p }
{}

/// No request of a run is answered by FAILED 7, a bad upload, or by FAILED 9, a sender that isn't a replica.
#[tactic(auto, using(crate::proofs::Later::replies_are_possible))]
pub fn no_upload_is_bad_and_no_sender_a_stranger()
    ensures { (setup : Setup) (turns : List Turn) (w : State) (r : Reply) → IsSetup setup → Runs setup turns w
        → Has w.sent (sent.Reply r) → IsPossibleStatus r.status }
{}

/// A run appends exactly what its turns produce, in their order: the stream behind it is the one before with these messages. And each query
/// that isn't answered yet is the one that was asked by its number.
#[tactic(auto, using(crate::proofs::Produced::run_appends))]
pub fn a_run_appends_what_is_produced()
    ensures log { (from : State) (turns : List Turn) (to : State) → Leads from turns to → to.log ≡ appended from.log turns }
    ensures queries { (from : State) (turns : List Turn) (to : State) (queries : List Query) → Leads from turns to → AreAsked from queries
        → AreAsked to (asked_in queries turns) }
{}
