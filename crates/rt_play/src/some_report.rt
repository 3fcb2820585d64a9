//! The laws that a script has a report, and that of a generated run is never refused. They stand on functions that do nothing: their clauses are
//! the laws.
ghost use Rattle.std.specs.Prelude.{◌≡◌, ◌⊎◌, ℕ, List, None, Some};
ghost use Rattle.rt_base.specs.declared.which.Which.{Which};
ghost use Rattle.rt_lines.specs.declared.play_fault.PlayFault.TheVariants.{Limit};
ghost use Rattle.rt_play.specs.Generating.{IsGenerated};
ghost use Rattle.rt_play.specs.Report.{IsReport, Report};
ghost use Rattle.rt_play.specs.declared.generating.Generated.{Generated};

/// Each input has a report, whatever its lines are, and so has each generated run: no line comes to nothing.
pub fn a_script_has_a_report()
    ensures report { (input : List ℕ) → (report : Report) × IsReport input report }
    ensures generated { (asked : Generated) → (report : Report) × IsGenerated asked report }
{}

/// The report of a generated run is the whole of it, or a limit is named: its header is read as its cluster, no row is refused but by a limit, nor is
/// the settling or the query.
pub fn a_generated_run_is_never_refused()
    ensures { (asked : Generated) (report : Report) → IsGenerated asked report
        → (report.stop ≡ None) ⊎ ((which : Which) × (report.stop ≡ Some (Limit which))) }
{}
