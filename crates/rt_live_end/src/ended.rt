//! What is true of an ended cluster. Each law stands on a function that does nothing: its clause is the law.
ghost use Rattle.std.specs.Prelude.{◌≡◌};
ghost use Rattle.rt_deep.specs.declared.deep_put.DeepPut.{DeepPut};
ghost use Rattle.rt_ground.specs.Histories.{whats};
ghost use Rattle.rt_lists.specs.Members.{Has};
ghost use Rattle.rt_live_end.specs.Ended.{Ended, IsEnded};
ghost use Rattle.rt_live_names.specs.ControllerPart.{ControllerPart};
ghost use Rattle.rt_live_names.specs.Fronts.{own_files, own_writes};
ghost use Rattle.rt_live_names.specs.Names.{Names};
ghost use Rattle.rt_model.specs.Metadata.{IsDone};
ghost use Rattle.rt_model.specs.declared.node.Seen.{Seen};

/// Each commit and each file is some controller's own, and the stream has the messages of the input, in input order.
pub fn what_stands_is_a_nodes_own()
    ensures commits { (n : Names) (e : Ended) (w : Seen) → IsEnded n e
        → Has (whats e.met.store.seen) w → IsDone w.node
        → (a : ControllerPart) × Has e.controllers a × Has (own_writes a.fronts) w }
    ensures files { (n : Names) (e : Ended) (f : DeepPut) → IsEnded n e
        → Has (whats e.met.deep.seen) f
        → (a : ControllerPart) × Has e.controllers a × Has (own_files a.fronts) f }
    ensures messages { (n : Names) (e : Ended) → IsEnded n e
        → whats e.met.stream.seen ≡ n.rows }
{}
