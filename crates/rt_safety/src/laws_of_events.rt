//! The law that what is due can happen: it stands on a function that does nothing, and its clause is the law.
ghost use Rattle.std.specs.Prelude.{◌≡◌, Ok};
ghost use Rattle.rt_events.specs.declared.event.Event.{Event};
ghost use Rattle.rt_events.specs.declared.outcome.Outcome.{Outcome};
ghost use Rattle.rt_safety.specs.Possible.{IsTyped};
ghost use Rattle.rt_state.specs.IsSafeWorld.{IsSafeWorld};
ghost use Rattle.rt_world.specs.Step.{due_of, Steps};
ghost use Rattle.rt_state.specs.declared.state.State.{State};

/// In a safe world an event that isn't refused can happen: there is an outcome, and a world to which it leads. Of `build` it
/// is said of rows such as their types hold, as each world of a run has them (`rt_made`,
/// `the_rows_of_a_run_are_of_their_types`): whole numbers of 32 or 64 bits, texts of at most 65,536 bytes, and at most a
/// million rows.
#[tactic(auto, using(crate::proofs::Can::due_happens))]
pub fn a_due_event_can_happen()
    ensures { (w : State) (e : Event) → IsSafeWorld w → IsTyped w e → due_of w e ≡ Ok tt
        → (y : State) × (outcome : Outcome) × Steps w e y (Ok outcome) }
{}
