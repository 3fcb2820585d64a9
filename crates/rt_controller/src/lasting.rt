//! What lasts of a controller, with respect to what has grown so far. Each law is a function without a body, and its
//! contract is the law.
ghost use Rattle.std.specs.Prelude.{◌≡◌, ◌<◌, ◌^◌, ℕ, Bool, true, List, length, Some, Ok};
ghost use Rattle.rt_base.specs.declared.numbers.ControllerId.{ControllerId};
ghost use Rattle.rt_base.specs.declared.numbers.Moment.{Moment};
ghost use Rattle.rt_lists.specs.Members.{Has};
ghost use Rattle.rt_deep.specs.Memory as deep;
ghost use Rattle.rt_model.specs.declared.job_step.JobStep.{JobStep};
ghost use Rattle.rt_model.specs.declared.machine_state.MachineState.TheVariants.{Committing};
ghost use Rattle.rt_model.specs.declared.request.Request.{Request};
ghost use Rattle.rt_model.specs.declared.sent.Sent.TheVariants as sent;
ghost use Rattle.rt_model.specs.declared.setup.Setup.{Setup};
ghost use Rattle.rt_model.specs.Setup.{IsSetup};
ghost use Rattle.rt_past.specs.IsPast.{IsPast};
ghost use Rattle.rt_past.specs.Past.{Past, Grows};
ghost use Rattle.rt_store.specs.Contents.{starting_of};
ghost use Rattle.rt_store.specs.Meaning.{Meaning, Told};
ghost use Rattle.rt_store.specs.Memory.{means};
ghost use Rattle.rt_controller.specs.declared.handled.Handled.{Handled};
ghost use Rattle.rt_commit.specs.declared.job.Job.{Job};
ghost use Rattle.rt_controller.specs.declared.segment_machine.SegmentMachine.{SegmentMachine};
ghost use Rattle.rt_commit.specs.Calls.{DeepMeaning};
ghost use Rattle.rt_controller.specs.Answers.{Handling};
ghost use Rattle.rt_controller.specs.Controller.{Controlling, beginning, believing, crashed};
ghost use Rattle.rt_controller.specs.Requests.{handle_call};
ghost use Rattle.rt_controller.specs.Working.{Working, work_call};
ghost use Rattle.rt_controller.specs.IsController.{IsController};
ghost use Rattle.rt_commit.specs.Job.{commits};
ghost use Rattle.rt_controller.specs.Lasting.{HasItsMachine, HasOneJob, IsControllerOver, IsOnlyJob};
ghost use Rattle.rt_commit.specs.Right.{past_after, told_past};
ghost use Rattle.rt_controller.specs.Right.{HandlesOver, IsHandled, IsReplied, IsTimely, WorksOver, commit_job, commit_started, job_of, left_of};
ghost use Rattle.rt_controller.specs.Steps.{Handles, Works};
ghost use Rattle.rt_commit.specs.Told.{ToldDeep};
ghost use Rattle.rt_controller.specs.Told.{handled_on, worked_on};

/// What lasts of a controller stays true as the past grows.
pub fn what_lasts_stays_true()
    ensures { (setup : Setup) (a b : Past) (c : Controlling) → Grows a b → IsControllerOver setup a c → IsControllerOver setup b c }
{}

/// It is true of a controller that begins, and stays so when the controller is told whether it leads and when it crashes.
pub fn what_needs_no_store_keeps_what_lasts()
    ensures begins { (setup : Setup) (past : Past) (id : ControllerId) → IsControllerOver setup past (beginning id setup) }
    ensures believes { (setup : Setup) (past : Past) (c : Controlling) (leads : Bool) → IsControllerOver setup past c
        → IsControllerOver setup past (believing c leads) }
    ensures crashes { (setup : Setup) (past : Past) (c : Controlling) → IsControllerOver setup past c
        → IsControllerOver setup past (crashed c) }
{}

/// Over a right past such a controller is ready for each of its calls.
pub fn what_lasts_is_ready()
    ensures { (setup : Setup) (past : Past) (c : Controlling) → IsSetup setup → IsPast setup past → IsControllerOver setup past c
        → IsController (starting_of setup) past.history c }
{}

/// A request that was sent, over stores that tell everything, puts and writes what is right, whatever fault it meets. It leaves the
/// controller as it lasts over what was put then, and what it answers at once is right.
pub fn a_request_keeps_the_past_right()
    ensures past { (setup : Setup) (past : Past) (t : Told) (d : ToldDeep) (c : Controlling) (r : Request)
        → IsPast setup (told_past past t d) → Has past.sent (sent.Request r)
        → Grows (told_past past t d) (past_after past t d (handle_call c r)) × IsPast setup (past_after past t d (handle_call c r)) }
    ensures controller { (setup : Setup) (past : Past) (t : Told) (d : ToldDeep) (c : Controlling) (r : Request) (now : Moment) (x : Handling)
        → IsSetup setup → IsPast setup (told_past past t d) → Has past.sent (sent.Request r) → IsControllerOver setup (told_past past t d) c
        → handled_on t d c r now ≡ Some x → IsControllerOver setup (past_after past t d (handle_call c r)) x.controller }
    ensures reply { (setup : Setup) (past : Past) (t : Told) (d : ToldDeep) (c : Controlling) (r : Request) (now : Moment) (x : Handling)
        → IsSetup setup → IsPast setup (told_past past t d) → Has past.sent (sent.Request r) → IsControllerOver setup (told_past past t d) c
        → handled_on t d c r now ≡ Some x → IsHandled (past_after past t d (handle_call c r)) x.handled }
{}

/// So does a step of a job, and the answer with which it ends one is right.
pub fn a_job_keeps_the_past_right()
    ensures past { (setup : Setup) (past : Past) (t : Told) (d : ToldDeep) (c : Controlling) (n : ℕ) (now : Moment)
        → IsSetup setup → IsPast setup (told_past past t d) → IsControllerOver setup (told_past past t d) c
        → Grows (told_past past t d) (past_after past t d (work_call c n now)) × IsPast setup (past_after past t d (work_call c n now)) }
    ensures controller { (setup : Setup) (past : Past) (t : Told) (d : ToldDeep) (c : Controlling) (n : ℕ) (now : Moment) (x : Working)
        → IsSetup setup → IsPast setup (told_past past t d) → IsControllerOver setup (told_past past t d) c
        → worked_on t d c n now ≡ Some x → IsControllerOver setup (past_after past t d (work_call c n now)) x.controller }
    ensures reply { (setup : Setup) (past : Past) (t : Told) (d : ToldDeep) (c : Controlling) (n : ℕ) (now : Moment) (x : Working)
        → IsSetup setup → IsPast setup (told_past past t d) → IsControllerOver setup (told_past past t d) c
        → worked_on t d c n now ≡ Some x → IsReplied (past_after past t d (work_call c n now)) x.step.reply }
{}

/// Over stores whose contents are the past's, a request leaves the past right and the controller as it lasts; what it answers at once is
/// right, and neither that the upload is bad nor that the sender isn't assigned.
pub fn a_request_over_a_past()
    ensures { (setup : Setup) (past : Past) (t u : Told) (d e : ToldDeep) (c new : Controlling) (r : Request) (now : Moment) (what : Handled)
        → IsSetup setup → IsPast setup past → length past.history < 2 ^ 64 → past.history ≡ t.writes → past.files ≡ d.files
        → Has past.sent (sent.Request r) → IsControllerOver setup past c
        → Handles {E = Unit {0}} (means t) (means u) (deep.means d) (deep.means e) c r now new (Ok what)
        → HandlesOver setup past u e c new what }
{}

/// So does a step of a job, which has fewer steps left then. A commit job ends with COMMIT_SUCCESS, with a node that is gone or has
/// another version, with ten versions of the ideal state each found in place of the one just read, or with a fault that was met in this
/// step.
pub fn a_step_over_a_past()
    ensures { (setup : Setup) (past : Past) (t u : Told) (d e : ToldDeep) (c new : Controlling) (n : ℕ) (now : Moment) (step : JobStep)
        → IsSetup setup → IsPast setup past → past.history ≡ t.writes → past.files ≡ d.files → IsControllerOver setup past c
        → Works (means t) (means u) (deep.means d) (deep.means e) c n now new (Ok step)
        → WorksOver setup past t u d e c new n step }
{}

/// A CommitEnd in time starts the commit job of its segment: one that was sent, at a controller that believes that it leads and whose
/// machine of the segment is COMMITTER_UPLOADING with this sender and this offset, up to the machine's deadline. The job is the one of its
/// number, and has 23 steps left.
pub fn a_timely_commit_end_starts_its_job()
    ensures starts { (setup : Setup) (past : Past) (c new : Controlling) (r : Request) (now : Moment) (path : List ℕ) (place : ℕ) (m : SegmentMachine)
        (s t : Meaning) (d e : DeepMeaning) (what : Handled) → IsPast setup past → Has past.sent (sent.Request r) → IsControllerOver setup past c
        → IsTimely c r now path place m → Handles {E = Unit {0}} s t d e c r now new (Ok what)
        → record { controller = new; handled = what } ≡ commit_started c r path place m }
    ensures job { (setup : Setup) (past : Past) (c : Controlling) (r : Request) (now : Moment) (path : List ℕ) (place : ℕ) (m : SegmentMachine)
        → IsPast setup past → Has past.sent (sent.Request r) → IsControllerOver setup past c → IsTimely c r now path place m
        → job_of (commit_started c r path place m).controller c.started ≡ Some (commit_job c r path m) }
    ensures steps { (setup : Setup) (past : Past) (c : Controlling) (r : Request) (now : Moment) (path : List ℕ) (place : ℕ) (m : SegmentMachine)
        → IsPast setup past → Has past.sent (sent.Request r) → IsControllerOver setup past c → IsTimely c r now path place m
        → left_of (commit_started c r path place m).controller c.started ≡ 23 }
{}

/// A COMMITTING machine has one unfinished commit job, which ends at its offset; a commit job has its COMMITTING machine; and no other
/// commit job of that segment is open.
pub fn a_committing_machine_has_its_job()
    ensures machines { (setup : Setup) (past : Past) (c : Controlling) (m : SegmentMachine) → IsControllerOver setup past c → Has c.machines m
        → m.machine.state ≡ Committing → HasOneJob c.jobs m }
    ensures jobs { (setup : Setup) (past : Past) (c : Controlling) (j : Job) → IsControllerOver setup past c → Has c.jobs j
        → commits j.stage ≡ true → HasItsMachine c.machines j × IsOnlyJob c.jobs j }
{}
