//! The law of paused runs. It stands on a function that does nothing: its clause is the law.
ghost use Rattle.std.specs.Prelude.{◌≡◌, Result, true};
ghost use Rattle.rt_desk.specs.Paused.{Allowed, LeadsBy};
ghost use Rattle.rt_desk.specs.Saying.{LineTold};
ghost use Rattle.rt_desk.specs.Telling.{Told};
ghost use Rattle.rt_desk.specs.declared.desk.Desk.{Desk};
ghost use Rattle.rt_events.specs.declared.refusal.Refusal.{Refusal};
ghost use Rattle.rt_macros.specs.Doing.{Reached};
ghost use Rattle.rt_script.specs.Line.{FitsLine};
ghost use Rattle.rt_script.specs.declared.line.Line.{Line};
ghost use Rattle.rt_state.specs.declared.state.State.{State};

/// While a run is paused no replica in INITIAL_CONSUMING takes a message: the turns of each line, also of one that stops the run,
/// lead to the world behind it, and by none of them such a replica consumes.
pub fn while_paused_no_replica_begins()
    ensures { (said : Line) (desk : Desk) (w : State) (v : Reached) (result : Result Told Refusal) → FitsLine w.setup.schema said → desk.pause ≡ true
        → LineTold said desk w v result → LeadsBy (Allowed true) w v.turns v.world }
{}
