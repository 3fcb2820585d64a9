//! The laws of a run's limits: each stands on a function that does nothing, and its clause is the law.
ghost use Rattle.std.specs.Prelude.{◌≡◌, true, List, Ok, Err};
ghost use Rattle.rt_base.specs.declared.which.Which.{Which};
ghost use Rattle.rt_events.specs.declared.event.Event.{Event};
ghost use Rattle.rt_events.specs.declared.refusal.Refusal.TheVariants.{Limit};
ghost use Rattle.rt_model.specs.declared.setup.Setup.{Setup};
ghost use Rattle.rt_safety.specs.Counted.{IsCounted};
ghost use Rattle.rt_safety.specs.Runs.{Runs, Turn};
ghost use Rattle.rt_safety.specs.Limits.{IsPassed, can_pass, cost_of};
ghost use Rattle.rt_state.specs.IsSafeWorld.{IsSafeWorld};
ghost use Rattle.rt_world.specs.Step.{due_of};
ghost use Rattle.rt_state.specs.declared.state.State.{State};

/// An event is refused by a limit only where it would pass that very one, and it can pass but its own: each one that of events,
/// `produce` that of a message, `report` that of uploads, `ask` that of queries, `job`, `repair` and `retain` that of entries, and
/// `tick` that of moments. One that isn't refused passes none.
#[tactic(auto, using(crate::proofs::OwnLimits::limit_owned, crate::proofs::OwnLimits::limit_passed, crate::proofs::OwnLimits::room_left))]
pub fn each_event_has_its_own_limits()
    ensures own { (w : State) (e : Event) (which : Which) → IsSafeWorld w → due_of w e ≡ Err (Limit which) → can_pass e which ≡ true }
    ensures passed { (w : State) (e : Event) (which : Which) → due_of w e ≡ Err (Limit which) → IsPassed w (cost_of w e) which }
    ensures room { (w : State) (e : Event) (which : Which) → due_of w e ≡ Ok tt → IsPassed w (cost_of w e) which → ⊥ }
{}

/// What a run counts towards its limits is what there is: its turns, the bytes that its requests upload, and the entries of all
/// ideal states that were written.
#[tactic(auto, using(crate::proofs::Counting::runs_count))]
pub fn the_counts_of_a_run_are_right()
    ensures { (setup : Setup) (turns : List Turn) (w : State) → Runs setup turns w → IsCounted w turns }
{}
