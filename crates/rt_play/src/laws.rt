//! The law that a script is a run. It stands on a function that does nothing: its clause is the law.
ghost use Rattle.std.specs.Prelude.{◌≡◌, ℕ, List, Ok};
ghost use Rattle.rt_lines.specs.Header.{NumberedLine};
ghost use Rattle.rt_lines.specs.Lines.{script_lines};
ghost use Rattle.rt_play.specs.Beginning.{beginning_of, going_from};
ghost use Rattle.rt_play.specs.Report.{FrontRuns};
ghost use Rattle.rt_play.specs.declared.beginning.Beginning.{Beginning};
ghost use Rattle.rt_safety.specs.Runs.{Runs};
ghost use Rattle.rt_state.specs.IsSafeWorld.{IsSafeWorld};

/// The lines of a script of which a report tells are a run of the script's cluster: their turns, one after the other, lead from the
/// cluster's first world to the one behind these lines, which is safe. So is each world on the way, and each answer in it is right, by
/// the laws of runs.
pub fn a_script_is_a_run()
    ensures { (input : List ℕ) (beginning : Beginning) (lines : List NumberedLine) (texts : List (List ℕ)) (front : FrontRuns lines (going_from beginning) texts)
        → beginning_of (script_lines input) ≡ Ok (beginning, lines) → Runs beginning.setup front.turns front.last.world × IsSafeWorld front.last.world }
{}
