//! The laws of jobs. Each stands on a function that does nothing: its clause is the law.
ghost use Rattle.std.specs.Prelude.{◌≡◌, ◌<◌, ◌≤◌, ◌↔◌, false, List, ℕ, [], length, Some, Result, Ok};
ghost use Rattle.rt_base.specs.declared.numbers.Moment.{Moment};
ghost use Rattle.rt_base.specs.declared.numbers.Offset.{Offset};
ghost use Rattle.rt_model.specs.declared.asked.Asked.{Asked};
ghost use Rattle.rt_model.specs.declared.ideal_state.IdealEntry.{IdealEntry};
ghost use Rattle.rt_model.specs.declared.node.Seen.{Seen};
ghost use Rattle.rt_store.specs.Meaning.{Meaning};
ghost use Rattle.rt_commit.specs.declared.job.Job.{Job};
ghost use Rattle.rt_commit.specs.declared.job.JobStage.{JobStage};
ghost use Rattle.rt_commit.specs.declared.job.JobStage.TheVariants as stage;
ghost use Rattle.rt_commit.specs.declared.stepped.Stepped.{Stepped};
ghost use Rattle.rt_commit.specs.declared.work.Work.TheVariants as work;
ghost use Rattle.rt_commit.specs.declared.work.Work.{Work};
ghost use Rattle.rt_commit.specs.Assignment.{Assigned};
ghost use Rattle.rt_commit.specs.Calls.{Answer, DeepMeaning, entries_set};
ghost use Rattle.rt_commit.specs.IsJob.{IsAt};
ghost use Rattle.rt_commit.specs.Job.{Stepping, changed_entries, changes, job_call, job_sets, step_at};
ghost use Rattle.rt_commit.specs.Laws.{Move, GoesOn, IsOwnSuccess, IsTrying, Tells};
ghost use Rattle.rt_commit.specs.Own.{HasReadFile, IsOwnAnswer, IsOwnNode, OwnsMore};
ghost use Rattle.rt_commit.specs.Steps.{StageSteps};

/// Whatever its stores answer, a commit job ends with its 23rd step or before, and an offline job with its 20th.
pub fn jobs_end()
    ensures commits { (q : Asked) (from : Seen) (end : Offset) (path : List ℕ) (moves : List Move) (to : JobStage)
        → GoesOn q (stage.Check from end path) moves to → length moves < 23 }
    ensures offline { (q : Asked) (moves : List Move) (to : JobStage)
        → GoesOn q (stage.IdealRead work.Offline []) moves to → length moves < 20 }
{}

/// A job's reply is that of its first failing step, else its success. Each step has its stage's name. A job goes on after no failure, and
/// after another version only at `idealSet`, where fewer than nine were found before: the tenth ends it with all ten versions. It succeeds
/// with COMMIT_SUCCESS, or with PROCESSED where it only turns an instance OFFLINE, at `next` where its Done write is gone, at `idealRead`
/// where it changes nothing of what it has read, and at `idealSet`; it goes on from `idealRead` where it changes something. COMMIT_SUCCESS
/// goes with the Done metadata that the job itself has written.
pub fn a_job_replies_by_its_first_failure()
    ensures step { (q : Asked) (now : Moment) (from : JobStage) (answer : Answer) (x : Stepping)
        → IsTrying from → step_at q now from answer ≡ Some x → Tells q now from answer x }
    ensures commits { (q : Asked) (from : Seen) (end : Offset) (path : List ℕ) (moves : List Move) (at : JobStage)
        (now : Moment) (answer : Answer) (x : Stepping)
        → GoesOn q (stage.Check from end path) moves at → step_at q now at answer ≡ Some x → Tells q now at answer x }
    ensures offline { (q : Asked) (moves : List Move) (at : JobStage) (now : Moment) (answer : Answer) (x : Stepping)
        → GoesOn q (stage.IdealRead work.Offline []) moves at → step_at q now at answer ≡ Some x → Tells q now at answer x }
    ensures own { (q : Asked) (from : Seen) (end : Offset) (path : List ℕ) (moves : List Move) (at : JobStage)
        (now : Moment) (answer : Answer) (x : Stepping)
        → GoesOn q (stage.Check from end path) moves at → step_at q now at answer ≡ Some x
        → IsOwnSuccess from end path moves x.did.status }
{}

/// A job has something to change exactly where its step changes the entries, and what is told of the number of entries that its next step
/// sets is the length of the entries in that step's write: none exactly where it sets no ideal state.
pub fn a_job_sets_what_it_changes()
    ensures changes { (a : Assigned) (q : Asked) (w : Work) (entries : List IdealEntry) → 1 ≤ a.replication
        → (changes q w entries ≡ false) ↔ (changed_entries a q w entries ≡ entries) }
    ensures sets { (a : Assigned) (j : Job) (now : Moment) → job_sets a j ≡ entries_set (job_call a j now) }
{}

/// What a step of a job rests on and writes, over what the callers of its stores have seen. A job that is to write its Done metadata has
/// read the file that these name. What a step writes is a segment's metadata in progress, Done metadata that names a file that was read, or
/// an ideal state. With COMMIT_SUCCESS goes Done metadata that was seen to be written.
pub fn a_job_writes_what_it_has_read()
    ensures reads { (s t : Meaning) (d e : DeepMeaning) (a : Assigned) (q : Asked) (now : Moment) (from to : JobStage) (result : Result Stepped (Unit {0}))
        → IsAt s.seen q from → HasReadFile d.seen q from → StageSteps s t d e a q now from to result → HasReadFile e.seen q to }
    ensures writes { (s t : Meaning) (d e : DeepMeaning) (a : Assigned) (q : Asked) (now : Moment) (from to : JobStage) (result : Result Stepped (Unit {0}))
        → IsAt s.seen q from → HasReadFile d.seen q from → StageSteps s t d e a q now from to result
        → OwnsMore (λ w. IsOwnNode e.seen w.key w.node) s.own t.own }
    ensures tells { (s t : Meaning) (d e : DeepMeaning) (a : Assigned) (q : Asked) (now : Moment) (from to : JobStage) (did : Stepped)
        → IsAt s.seen q from → StageSteps {E = Unit {0}} s t d e a q now from to (Ok did)
        → IsOwnAnswer t.seen q.partition q.sequence did.status }
{}
