//! The laws, each on a function that does nothing: its clause is the law.
ghost use Rattle.std.specs.Prelude.{◌≡◌, ℕ, List, Ok, Some};
ghost use Rattle.rt_events.specs.declared.event.Event.{Event};
ghost use Rattle.rt_events.specs.declared.outcome.Outcome.{Outcome};
ghost use Rattle.rt_hybrid.specs.Batch.{columns_pushed, rows_pushed};
ghost use Rattle.rt_hybrid.specs.Files.{IsFileOf};
ghost use Rattle.rt_lines.specs.Header.{NumberedLine, header_of};
ghost use Rattle.rt_lines.specs.Lines.{ScriptLines};
ghost use Rattle.rt_made.specs.Named.{HasTextNames};
ghost use Rattle.rt_model.specs.Setup.{IsSetup};
ghost use Rattle.rt_model.specs.declared.setup.Setup.{Setup};
ghost use Rattle.rt_safety.specs.Possible.{IsTyped};
ghost use Rattle.rt_safety.specs.Runs.{Runs, Turn};
ghost use Rattle.rt_schema.specs.Schema.{IsSchema};
ghost use Rattle.rt_schema.specs.declared.row.Row.{Row};
ghost use Rattle.rt_schema.specs.declared.schema.Schema.{Schema};
ghost use Rattle.rt_segment.specs.Segment.{SealedSegment};
ghost use Rattle.rt_state.specs.declared.state.State.{State};
ghost use Rattle.rt_world.specs.Step.{Steps, due_of};

/// In each world that a run of a cluster comes to, whose columns have names in UTF-8, a replica that seals its rows has rows, and a number of its
/// segment, such as their types hold: whole numbers of 32 or 64 bits, texts in UTF-8 of at most 65,536 bytes, and at most a million rows.
#[tactic(auto, using(crate::proofs::Typed::run_typed))]
pub fn the_rows_of_a_run_are_of_their_types()
    ensures { (setup : Setup) (turns : List Turn) (w : State) (e : Event) → IsSetup setup → HasTextNames setup.schema → Runs setup turns w
        → IsTyped w e }
{}

/// So an event that isn't refused there can happen, whichever it is: there is an outcome, and a world to which it leads.
#[tactic(auto, using(crate::proofs::Typed::run_goes_on))]
pub fn what_is_due_happens_in_a_run()
    ensures { (setup : Setup) (turns : List Turn) (w : State) (e : Event) → IsSetup setup → HasTextNames setup.schema → Runs setup turns w
        → due_of w e ≡ Ok tt → (y : State) × (outcome : Outcome) × Steps w e y (Ok outcome) }
{}

/// The columns of a script whose header is taken have names in UTF-8.
pub fn the_columns_of_a_script_have_text_names()
    ensures { (script : ScriptLines) (setup : Setup) (lines : List NumberedLine) → header_of script ≡ Ok (setup, lines) → HasTextNames setup.schema }
{}

/// Rows that can be pushed have a file.
#[tactic(auto, using(crate::proofs::Files::push_filed))]
pub fn pushed_rows_have_a_file()
    ensures { (schema : Schema) (number : ℕ) (text : List ℕ) (rows : List Row) → IsSchema schema → rows_pushed schema text ≡ Some rows
        → (file : SealedSegment) × IsFileOf schema number (columns_pushed schema text) rows file }
{}
