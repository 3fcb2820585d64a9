//! The laws of a cluster. Each stands on a function that does nothing: its clause is the law.
ghost use Rattle.std.specs.Prelude.{◌≡◌, ℕ, List, Some, Result, Ok, Err, slice_get};
ghost use Rattle.rt_base.specs.declared.numbers.ControllerId.{ControllerId};
ghost use Rattle.rt_base.specs.declared.numbers.Offset.{Offset};
ghost use Rattle.rt_controller.specs.Right.{IsTimely};
ghost use Rattle.rt_controller.specs.declared.segment_machine.SegmentMachine.{SegmentMachine};
ghost use Rattle.rt_model.specs.Messages.{asked_of};
ghost use Rattle.rt_model.specs.declared.asked.Asked.{Asked};
ghost use Rattle.rt_model.specs.declared.request.Request.{Request};
ghost use Rattle.rt_safety.specs.CommitRun.{GoesSo, GoesWithoutCrash, IsOpen, Opens};
ghost use Rattle.rt_safety.specs.Runs.{Turn};
ghost use Rattle.rt_events.specs.declared.event.Event.{Event};
ghost use Rattle.rt_events.specs.declared.event.Event.TheVariants as event;
ghost use Rattle.rt_events.specs.declared.outcome.Outcome.{Outcome};
ghost use Rattle.rt_events.specs.declared.refusal.Refusal.{Refusal};
ghost use Rattle.rt_events.specs.declared.refusal.Refusal.TheVariants.{Memory};
ghost use Rattle.rt_model.specs.Setup.{IsSetup};
ghost use Rattle.rt_model.specs.declared.setup.Setup.{Setup};
ghost use Rattle.rt_events.specs.Fits.{Fits};
ghost use Rattle.rt_state.specs.Finding.{request_at};
ghost use Rattle.rt_state.specs.IsSafeWorld.{IsSafeWorld};
ghost use Rattle.rt_state.specs.Start.{start};
ghost use Rattle.rt_world.specs.Step.{Steps};
ghost use Rattle.rt_nodes.specs.declared.controller_node.ControllerNode.{ControllerNode};
ghost use Rattle.rt_state.specs.declared.state.State.{State};

/// Every event keeps a world safe, however it goes, until memory runs out.
#[tactic(auto, using(rt_world::proofs::SafeSteps::steps_keep))]
pub fn every_event_keeps_a_world_safe()
    ensures { (old : State) (event : Event) (new : State) (result : Result Outcome Refusal) → (result ≡ Err Memory → ⊥)
        → Fits old.setup.schema event → IsSafeWorld old → Steps old event new result → IsSafeWorld new }
{}

/// The first world of a cluster is safe.
#[tactic(auto, using(rt_world::proofs::StartSafe::start_safe))]
pub fn the_first_world_is_safe()
    ensures { (setup : Setup) → IsSetup setup → IsSafeWorld (start setup) }
{}

/// A COMMIT_END that is delivered in time to a controller that believes it leads, from the machine's winner, opens the commit job of its
/// segment, up to its own offset, with 23 steps left at most; and the number that is told is the job's.
pub fn a_commit_end_in_time_opens_its_commit()
    ensures { (w : State) (m : ℕ) (c : ControllerId) (q : Request) (node : ControllerNode) (path : List ℕ) (place : ℕ) (g : SegmentMachine)
        (y : State) (outcome : Outcome) → IsSafeWorld w → request_at w m ≡ Some q → slice_get w.controllers c.0 ≡ Some node
        → IsTimely node.controller q w.moment path place g → Steps w (event.Deliver m c) y (Ok outcome)
        → Opens y c node.controller.started (asked_of q) q.offset outcome }
{}

/// A commit job that is open goes on along any turns without a crash of its controller, lines that are no events among them, with one step
/// less left at each of its own steps, until it ends in one of them: with COMMIT_SUCCESS, or for a node that is gone or had another version
/// before that step, ten versions of the ideal state each found in place of the one just read, or a fault that was met in that step. Its
/// reply is the one that is told of that step; it is sent, and the job is gone.
#[tactic(auto, using(crate::proofs::CommitRuns::commit_runs))]
pub fn an_open_commit_goes_on_until_it_ends()
    ensures { (c : ControllerId) (n : ℕ) (a : Asked) (end : Offset) (left : ℕ) (w : State) (turns : List Turn) (x : State)
        (r : GoesWithoutCrash c w turns x) → IsSafeWorld w → IsOpen w c n a end left → GoesSo c n a end left w turns x r }
{}
