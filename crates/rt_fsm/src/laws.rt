//! What holds of every life of a machine. Each law is a function without a body, and its contract is the law.

ghost use Rattle.std.specs.Prelude.{ℕ, List};
ghost use Rattle.rt_base.specs.declared.numbers.Instance.{Instance};
ghost use Rattle.rt_base.specs.declared.numbers.Moment.{Moment};
ghost use Rattle.rt_model.specs.declared.seg_meta.SeenMeta.{SeenMeta};
ghost use Rattle.rt_model.specs.declared.machine_state.MachineState.{MachineState};
ghost use Rattle.rt_model.specs.declared.completion.Ask.{Ask};
ghost use Rattle.rt_model.specs.Completion.{Completion, first, react, IsBeforePick};
ghost use Rattle.rt_fsm.specs.Life.{Message, life, machine_after};
ghost use Rattle.rt_fsm.specs.Laws.{HasOneCommitter, CommitsAgree, CommitsThePick, ComeFrom, HasNoLateJob, StaysOut, HasOneJobAtMost, ReportAtMost, HasOffsetsWithin, StartsAlone, StartsItsJob};

/// There is one instance and one offset for the whole life of a machine: each COMMIT goes to that instance and names
/// that offset, each CATCH_UP names that offset, each COMMIT_CONTINUE answers that instance's CommitStart at that
/// offset, and each commit job starts at that instance's CommitEnd at that offset.
#[tactic(auto, using(crate::proofs::Committer::one_committer))]
pub fn one_committer()
    ensures { (seen : SeenMeta) (replicas : List Instance) (state : MachineState) (made : Moment) (messages : List Message)
        → IsBeforePick state → HasOneCommitter (life seen replicas state made messages) }
{}

/// Any two COMMIT answers of a machine go to one instance and name one offset.
#[tactic(auto, using(crate::proofs::Committer::commits_agree))]
pub fn commits_agree()
    ensures { (seen : SeenMeta) (replicas : List Instance) (state : MachineState) (made : Moment) (messages : List Message)
        → IsBeforePick state → CommitsAgree (life seen replicas state made messages) }
{}

/// Each COMMIT, each COMMIT_CONTINUE and each commit job is for a replica that was picked, and for the offset of the
/// pick: that replica's note, than which no note was larger.
#[tactic(auto, using(crate::proofs::Pick::commits_the_pick))]
pub fn commits_the_pick()
    ensures { (seen : SeenMeta) (replicas : List Instance) (state : MachineState) (made : Moment) (messages : List Message)
        → IsBeforePick state → ComeFrom replicas messages → CommitsThePick (life seen replicas state made messages) }
{}

/// No commit job starts past the deadline.
#[tactic(auto, using(crate::proofs::Job::no_late_job))]
pub fn no_late_job()
    ensures { (seen : SeenMeta) (replicas : List Instance) (state : MachineState) (made : Moment) (messages : List Message)
        → HasNoLateJob (life seen replicas state made messages) }
{}

/// A machine starts at most one commit job.
#[tactic(auto, using(crate::proofs::Job::one_job))]
pub fn one_job()
    ensures { (seen : SeenMeta) (replicas : List Instance) (state : MachineState) (made : Moment) (messages : List Message)
        → HasOneJobAtMost (life seen replicas state made messages) }
{}

/// A replica that stopped before a pick, and hasn't reported an offset past the segment's start again, isn't the
/// committer.
#[tactic(auto, using(crate::proofs::Exclusion::stays_out))]
pub fn stays_out()
    ensures { (seen : SeenMeta) (replicas : List Instance) (state : MachineState) (made : Moment) (messages : List Message)
        → (i : Instance) (now : Moment) (later_messages : List Message)
        → StaysOut (machine_after (first seen replicas state made) messages) i now later_messages }
{}

/// What a machine notes, and the offset that it commits, lie past the segment's start and at most where the farthest
/// report was.
pub fn offsets_stay_within()
    ensures { (seen : SeenMeta) (replicas : List Instance) (state : MachineState) (made : Moment) (messages : List Message) (limit : ℕ)
        → IsBeforePick state → ComeFrom replicas messages → ReportAtMost limit messages
        → HasOffsetsWithin limit (machine_after (first seen replicas state made) messages) }
{}

/// The CommitEnd of a committer that uploads, at its offset and up to the deadline, starts the commit job.
#[tactic(auto, using(crate::proofs::Offsets::timely_commit_end))]
pub fn timely_commit_end()
    ensures { (seen : SeenMeta) (replicas : List Instance) (state : MachineState) (made : Moment) (messages : List Message) (now : Moment)
        → IsBeforePick state → ComeFrom replicas messages
        → StartsItsJob (machine_after (first seen replicas state made) messages) now }
{}

/// A commit job starts at no other message: its machine is COMMITTER_UPLOADING, the sender is the committer, and the message is its
/// CommitEnd at its offset, past the segment's start and up to the deadline.
pub fn a_commit_starts_at_its_committer_alone()
    ensures { (m : Completion) (i : Instance) (ask : Ask) (now : Moment)
        → StartsAlone m i ask now (react m i ask now).0 (react m i ask now).1 }
{}
