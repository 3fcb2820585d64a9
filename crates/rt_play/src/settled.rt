//! The law that a settle leaves no server out. It stands on a function that does nothing: its clause is the law.
ghost use Rattle.std.specs.Prelude.{ℕ, Bool, List, Ok};
ghost use Rattle.rt_macros.specs.Doing.{Reached};
ghost use Rattle.rt_macros.specs.Settling.{SettleTold};
ghost use Rattle.rt_play.specs.Turned.{LeaveNoneOut};
ghost use Rattle.rt_state.specs.declared.state.State.{State};

/// Among the turns of a `settle` line that isn't refused, each server that was up reads the ideal state.
pub fn a_settle_leaves_no_server_out()
    ensures { (paused : Bool) (rounds : ℕ) (w : State) (v : Reached) (text : List ℕ) → SettleTold paused rounds w v (Ok text) → LeaveNoneOut w v.turns }
{}
