//! What a controller puts, answers and starts, over what the callers of its stores have seen and what it took. Each law is a function
//! without a body, and its contract is the law.
ghost use Rattle.std.specs.Prelude.{◌≡◌, ℕ, Result, Ok};
ghost use Rattle.rt_base.specs.declared.numbers.Moment.{Moment};
ghost use Rattle.rt_lists.specs.Members.{Has};
ghost use Rattle.rt_model.specs.declared.job_step.JobStep.{JobStep};
ghost use Rattle.rt_model.specs.declared.request.Request.{Request};
ghost use Rattle.rt_model.specs.declared.sent.Sent.TheVariants as sent;
ghost use Rattle.rt_model.specs.Starting.{Starting};
ghost use Rattle.rt_past.specs.Past.{Past};
ghost use Rattle.rt_store.specs.Meaning.{Meaning};
ghost use Rattle.rt_commit.specs.Calls.{DeepMeaning};
ghost use Rattle.rt_controller.specs.declared.handled.Handled.{Handled};
ghost use Rattle.rt_controller.specs.declared.handled.JobRefused.{JobRefused};
ghost use Rattle.rt_controller.specs.Controller.{Controlling};
ghost use Rattle.rt_controller.specs.IsController.{IsController};
ghost use Rattle.rt_controller.specs.Own.{AreTaken, IsItsUpload, IsViewOf, PutsMore, StartsAtMachine, StartsCommit};
ghost use Rattle.rt_controller.specs.Right.{IsHandled, IsReplied};
ghost use Rattle.rt_controller.specs.Steps.{Handles, Works};

/// A commit job starts at its segment's machine alone: the controller believes that it leads, the machine is COMMITTER_UPLOADING, and the
/// request is the CommitEnd of its committer at its offset, up to its deadline. The job is that of the file which the request names.
pub fn a_commit_job_starts_at_its_machine_alone()
    ensures { (s t : Meaning) (d e : DeepMeaning) (c new : Controlling) (r : Request) (now : Moment) (what : Handled)
        → Handles {E = Unit {0}} s t d e c r now new (Ok what) → StartsCommit c new
        → StartsAtMachine c r now (record { controller = new; handled = what }) }
{}

/// What a controller puts it took: a file that becomes its caller's own is the upload of the request that it answers, and a step of a job
/// puts nothing. A request writes nothing into the store.
pub fn a_controller_puts_what_it_took()
    ensures puts { (s t : Meaning) (d e : DeepMeaning) (c new : Controlling) (r : Request) (now : Moment) (result : Result Handled (Unit {0}))
        → Handles s t d e c r now new result → PutsMore (IsItsUpload r) d.own e.own }
    ensures writes { (s t : Meaning) (d e : DeepMeaning) (c new : Controlling) (r : Request) (now : Moment) (result : Result Handled (Unit {0}))
        → Handles s t d e c r now new result → t.own ≡ s.own }
    ensures steps { (s t : Meaning) (d e : DeepMeaning) (c new : Controlling) (n : ℕ) (now : Moment) (result : Result JobStep JobRefused)
        → Works s t d e c n now new result → e.own ≡ d.own }
{}

/// What a controller answers it saw, over its own view: the request was taken, KEEP and COMMIT_SUCCESS carry Done metadata that was read or
/// written, and the file of UPLOAD_SUCCESS stands in what was put.
pub fn a_controller_answers_what_it_saw()
    ensures requests { (view : Past) (s t : Meaning) (d e : DeepMeaning) (c new : Controlling) (r : Request) (now : Moment) (what : Handled)
        → IsViewOf view t e → Has view.sent (sent.Request r) → Handles {E = Unit {0}} s t d e c r now new (Ok what) → IsHandled view what }
    ensures steps { (view : Past) (st : Starting) (s t : Meaning) (d e : DeepMeaning) (c new : Controlling) (n : ℕ) (now : Moment) (step : JobStep)
        → IsViewOf view t e → AreTaken view c.jobs → IsController st s.seen c → Works s t d e c n now new (Ok step) → IsReplied view step.reply }
{}
