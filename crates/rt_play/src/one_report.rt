//! The law that a script has one report. It stands on a function that does nothing: its clauses are the law.
ghost use Rattle.std.specs.Prelude.{◌≡◌, ◌++◌, ℕ, List, Result};
ghost use Rattle.rt_lines.specs.declared.play_fault.PlayFault.{PlayFault};
ghost use Rattle.rt_play.specs.Generating.{IsGenerated};
ghost use Rattle.rt_play.specs.Plays.{IsAnswer};
ghost use Rattle.rt_play.specs.Report.{IsFrontOfReport, IsReport, Report};
ghost use Rattle.rt_play.specs.declared.generating.Generated.{Generated};
ghost use Rattle.rt_play.specs.declared.play_end.PlayEnd.{PlayEnd};

/// A script has one report, with one answer: whatever was written of it before the sink failed, or memory ran out, is a front of it. A
/// generated run has one report too.
pub fn a_script_has_one_report()
    ensures report { (input : List ℕ) (a b : Report) → IsReport input a → IsReport input b → a ≡ b }
    ensures front { (input : List ℕ) (texts : List (List ℕ)) (report : Report) → IsFrontOfReport input texts → IsReport input report
        → (more : List (List ℕ)) × (report.texts ≡ texts ++ more) }
    ensures generated { (asked : Generated) (a b : Report) → IsGenerated asked a → IsGenerated asked b → a ≡ b }
    ensures answer { (input : List ℕ) (r s : Result PlayEnd PlayFault) → IsAnswer input r → IsAnswer input s → r ≡ s }
{}
