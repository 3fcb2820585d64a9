//! The law of paused scripts. It stands on a function that does nothing: its clauses are the law.
ghost use Rattle.std.specs.Prelude.{◌≡◌, ◌↔◌, ℕ, true, List, Ok};
ghost use Rattle.rt_lines.specs.Header.{NumberedLine};
ghost use Rattle.rt_lines.specs.Lines.{script_lines};
ghost use Rattle.rt_pause.specs.Paused.{IsPaused};
ghost use Rattle.rt_play.specs.Beginning.{beginning_of, going_from};
ghost use Rattle.rt_play.specs.Pausing.{HoldsBack, pausings_of};
ghost use Rattle.rt_play.specs.Report.{FrontRuns};
ghost use Rattle.rt_play.specs.declared.beginning.Beginning.{Beginning};

/// A script is paused from a `pause` line to the next `resume` line. Behind the first of its lines, as far as they run, the desk is paused
/// exactly where these lines have a `pause` and no `resume` behind it, whatever else stands among them. Then no replica in INITIAL_CONSUMING
/// takes a message by any turn of the line that comes next, whichever it is, and also where that line stops the run.
pub fn a_script_is_paused_from_pause_to_resume()
    ensures paused { (input : List ℕ) (beginning : Beginning) (lines : List NumberedLine) (texts : List (List ℕ)) (front : FrontRuns lines (going_from beginning) texts)
        → beginning_of (script_lines input) ≡ Ok (beginning, lines) → (front.last.desk.pause ≡ true) ↔ IsPaused (pausings_of beginning.setup front.front) }
    ensures held { (input : List ℕ) (beginning : Beginning) (lines : List NumberedLine) (texts : List (List ℕ)) (front : FrontRuns lines (going_from beginning) texts)
        → beginning_of (script_lines input) ≡ Ok (beginning, lines) → IsPaused (pausings_of beginning.setup front.front) → (line : NumberedLine)
        → HoldsBack line front.last }
{}
