//! The laws of absent nodes and of clusters that retire nothing: each stands on a function that does nothing, and its clause is
//! the law.
ghost use Rattle.std.specs.Prelude.{◌≡◌, ◌<◌, ◌↔◌, ℕ, List, Option, Some, None, Ok, slice_get};
ghost use Rattle.rt_base.specs.declared.numbers.ControllerId.{ControllerId};
ghost use Rattle.rt_base.specs.declared.numbers.Partition.{Partition};
ghost use Rattle.rt_controller.specs.Right.{job_of};
ghost use Rattle.rt_commit.specs.declared.job.Job.{Job};
ghost use Rattle.rt_events.specs.declared.event.Event.TheVariants as event;
ghost use Rattle.rt_events.specs.declared.outcome.Outcome.{Outcome};
ghost use Rattle.rt_events.specs.declared.outcome.Outcome.TheVariants as told;
ghost use Rattle.rt_lists.specs.Members.{Has};
ghost use Rattle.rt_model.specs.Chain.{IsPresent};
ghost use Rattle.rt_model.specs.Metadata.{node_key};
ghost use Rattle.rt_model.specs.Setup.{IsSetup};
ghost use Rattle.rt_model.specs.Tiled.{mark_of};
ghost use Rattle.rt_model.specs.declared.job_step.JobStep.{JobStep};
ghost use Rattle.rt_model.specs.declared.node.Node.TheVariants as node;
ghost use Rattle.rt_model.specs.declared.node.Seen.{Seen};
ghost use Rattle.rt_model.specs.declared.request.Request.{Request};
ghost use Rattle.rt_model.specs.declared.setup.Setup.{Setup};
ghost use Rattle.rt_safety.specs.Absent.{EndsNoSegment, FindsNone, ReadsNode, RepliesNoSegment, SetsDone};
ghost use Rattle.rt_safety.specs.Runs.{Turn, Runs};
ghost use Rattle.rt_state.specs.Finding.{request_at};
ghost use Rattle.rt_state.specs.IsSafeWorld.{IsSafeWorld};
ghost use Rattle.rt_world.specs.Step.{Steps};
ghost use Rattle.rt_nodes.specs.declared.controller_node.ControllerNode.{ControllerNode};
ghost use Rattle.rt_state.specs.declared.state.State.{State};

/// FAILED 4 is answered to a request exactly where its controller comes to read the segment's node, meets no fault in that, and
/// there is no such node; and by a job exactly where its step `done` finds none.
pub fn an_absent_node_alone_fails_by_4()
    ensures requests { (w : State) (m : ℕ) (c : ControllerId) (q : Request) (n : ControllerNode) (y : State) (outcome : Outcome) → IsSafeWorld w
        → request_at w m ≡ Some q → slice_get w.controllers c.0 ≡ Some n → Steps w (event.Deliver m c) y (Ok outcome)
        → RepliesNoSegment outcome ↔ (ReadsNode n.controller q × FindsNone w.store q.partition q.sequence) }
    ensures jobs { (w : State) (c : ControllerId) (j : ℕ) (n : ControllerNode) (job : Job) (y : State) (step : JobStep) (reply : Option ℕ)
        → IsSafeWorld w → slice_get w.controllers c.0 ≡ Some n → job_of n.controller j ≡ Some job
        → Steps w (event.Job c j) y (Ok (told.Stepped step reply))
        → EndsNoSegment step ↔ (SetsDone job.stage × FindsNone w.store job.asked.partition job.asked.sequence) }
{}

/// Without a retention no node is ever deleted: each one that was written for a segment is present, the mark of each partition is 0,
/// and FAILED 4 never comes.
pub fn without_a_retention_nothing_is_retired()
    ensures kept { (setup : Setup) (turns : List Turn) (w : State) (v : Seen) → setup.retention ≡ None → Runs setup turns w
        → Has w.store.writes v → v.node ≡ node.Gone → ⊥ }
    ensures present { (setup : Setup) (turns : List Turn) (w : State) (p : Partition) (s : ℕ) (v : Seen) → IsSetup setup
        → setup.retention ≡ None → Runs setup turns w → p.0 < w.setup.partitions → Has w.store.writes v → v.key ≡ node_key p s
        → IsPresent w.store.writes p s }
    ensures mark { (setup : Setup) (turns : List Turn) (w : State) (p : Partition) → IsSetup setup → setup.retention ≡ None
        → Runs setup turns w → p.0 < w.setup.partitions → mark_of w.store.writes p ≡ 0 }
    ensures requests { (setup : Setup) (turns : List Turn) (w : State) (m : ℕ) (c : ControllerId) (q : Request) (n : ControllerNode) (y : State)
        (outcome : Outcome) → IsSetup setup → setup.retention ≡ None → Runs setup turns w → request_at w m ≡ Some q
        → slice_get w.controllers c.0 ≡ Some n → Steps w (event.Deliver m c) y (Ok outcome) → RepliesNoSegment outcome → ⊥ }
    ensures jobs { (setup : Setup) (turns : List Turn) (w : State) (c : ControllerId) (j : ℕ) (n : ControllerNode) (job : Job) (y : State)
        (step : JobStep) (reply : Option ℕ) → IsSetup setup → setup.retention ≡ None → Runs setup turns w
        → slice_get w.controllers c.0 ≡ Some n → job_of n.controller j ≡ Some job
        → Steps w (event.Job c j) y (Ok (told.Stepped step reply)) → EndsNoSegment step → ⊥ }
{}
