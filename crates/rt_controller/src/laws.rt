//! The law of calls over stores that tell everything. It stands on a function that does nothing: its clause is the law.
ghost use Rattle.std.specs.Prelude.{◌≡◌, ℕ, Some};
ghost use Rattle.rt_base.specs.declared.numbers.Moment.{Moment};
ghost use Rattle.rt_model.specs.declared.request.Request.{Request};
ghost use Rattle.rt_deep.specs.Memory as deep;
ghost use Rattle.rt_store.specs.Meaning.{Told};
ghost use Rattle.rt_store.specs.Memory.{means};
ghost use Rattle.rt_commit.specs.Calls.{Makes, RanOut};
ghost use Rattle.rt_commit.specs.Told.{ToldDeep, IsExact};
ghost use Rattle.rt_controller.specs.Answers.{Handling};
ghost use Rattle.rt_controller.specs.Controller.{Controlling};
ghost use Rattle.rt_controller.specs.Requests.{handle, handle_call};
ghost use Rattle.rt_controller.specs.Told.{handled_on, worked_on};
ghost use Rattle.rt_controller.specs.Working.{Working, work, work_call};

/// Over stores that tell everything a request and a step of a job have one outcome, but that memory may run out, after
/// which all is as before.
pub fn told_calls_are_exact()
    ensures requests { (t u : Told) (d e : ToldDeep) (c : Controlling) (r : Request) (now : Moment) (x : Handling)
        → Makes (means t) (means u) (deep.means d) (deep.means e) (handle_call c r) (λ a. handle c r now a ≡ Some x)
        → IsExact t u d e (handle_call c r) (handled_on t d c r now) x }
    ensures steps { (t u : Told) (d e : ToldDeep) (c : Controlling) (n : ℕ) (now : Moment) (x : Working)
        → Makes (means t) (means u) (deep.means d) (deep.means e) (work_call c n now) (λ a. work c n now a ≡ Some x)
        → IsExact t u d e (work_call c n now) (worked_on t d c n now) x }
    ensures out { (t u : Told) (d e : ToldDeep) → RanOut (means t) (means u) (deep.means d) (deep.means e)
        → (u ≡ t) × (e ≡ d) }
{}
