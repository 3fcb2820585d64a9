//! What the reader of a report may take from it, by the script and the report alone. It stands on a function that does nothing: its
//! clauses are the law.
ghost use Rattle.std.specs.Prelude.{◌≡◌, ℕ, List, map, Ok};
ghost use Rattle.rt_lines.specs.Header.{NumberedLine, header_of};
ghost use Rattle.rt_lines.specs.Lines.{script_lines};
ghost use Rattle.rt_model.specs.declared.answer.Answer.{Answer};
ghost use Rattle.rt_model.specs.declared.query.Query.{Query};
ghost use Rattle.rt_model.specs.declared.setup.Setup.{Setup};
ghost use Rattle.rt_play.specs.AnswerTexts.{AreWords, row_told};
ghost use Rattle.rt_play.specs.Ledger.{CommitsStay};
ghost use Rattle.rt_play.specs.Reader.{AnswersCount, CountsProduced};
ghost use Rattle.rt_play.specs.Report.{IsFrontOfReport, IsReport, Report};
ghost use Rattle.rt_play.specs.Shown.{EndedStays};
ghost use Rattle.rt_report.specs.BrokerTexts.{answer_line};
ghost use Rattle.rt_schema.specs.declared.schema.Schema.{Schema};
ghost use Rattle.rt_stream.specs.Log.{Log};

/// Each answer counts what was produced: the ranges that it names come in order, each once, within what the `produce` and `fill` lines above it
/// gave, and its rows are those of its query over exactly the messages that these lines gave at these offsets. So it is of a `query` line, and
/// of an `answer` line for the query of its number; in a whole report, and in its first lines, where the sink failed or memory ran out.
pub fn each_answer_counts_what_was_produced()
    ensures report { (input : List ℕ) (report : Report) (setup : Setup) (lines : List NumberedLine) → IsReport input report
        → header_of (script_lines input) ≡ Ok (setup, lines) → AnswersCount setup lines report.texts }
    ensures front { (input : List ℕ) (texts : List (List ℕ)) (setup : Setup) (lines : List NumberedLine) → IsFrontOfReport input texts
        → header_of (script_lines input) ≡ Ok (setup, lines) → AnswersCount setup lines texts }
{}

/// A segment's node that a `show meta` line shows DONE or abandoned is the one that each later `show meta` line of that segment shows, until it
/// is shown to be gone. And what is gone stays so: where such a line showed a node, whatever it said, and a later one none, no later one shows
/// any.
pub fn what_is_shown_to_have_ended_stays()
    ensures report { (input : List ℕ) (report : Report) (setup : Setup) (lines : List NumberedLine) → IsReport input report
        → header_of (script_lines input) ≡ Ok (setup, lines) → EndedStays setup lines report.texts }
    ensures front { (input : List ℕ) (texts : List (List ℕ)) (setup : Setup) (lines : List NumberedLine) → IsFrontOfReport input texts
        → header_of (script_lines input) ≡ Ok (setup, lines) → EndedStays setup lines texts }
{}

/// What was committed stays: there is one range for each segment, and from a line on that tells of a segment's commit (a `show meta` that
/// tells DONE; a `job` that tells COMMIT_SUCCESS, or its step `done`, for a request that a `report` or an `exchange` line told; an `exchange`
/// that tells COMMIT_SUCCESS; a `reply` or an `exchange` behind which the replica knows of the commit), each later `show meta` line of it tells
/// DONE over this range, or that the segment is gone; and the answer of each later `query` line names the whole of this range, or nothing of it.
/// What is gone is gone from the front on and for good: each partition has a mark, which never falls, and is 0 where the table has no
/// retention. Such a segment is shown to be gone exactly where its range lies below the mark, no answer of a `query` line names an offset
/// below it, and one that misses nothing of a partition goes from it on without a gap through every such range above it.
pub fn what_was_committed_stays()
    ensures report { (input : List ℕ) (report : Report) (setup : Setup) (lines : List NumberedLine) → IsReport input report
        → header_of (script_lines input) ≡ Ok (setup, lines) → CommitsStay setup lines report.texts }
    ensures front { (input : List ℕ) (texts : List (List ℕ)) (setup : Setup) (lines : List NumberedLine) → IsFrontOfReport input texts
        → header_of (script_lines input) ≡ Ok (setup, lines) → CommitsStay setup lines texts }
{}

/// The text of an answer tells which ranges it names, and what it misses: two answers whose numbers fit 64 bits, as those of a report do, have one
/// text only if they name the same ranges and miss the same.
pub fn the_text_of_an_answer_tells_its_ranges()
    ensures { (a b : Answer) → AreWords a → AreWords b → answer_line a ≡ answer_line b → (a.ranges ≡ b.ranges) × (a.missing ≡ b.missing) }
{}

/// And it tells its rows, cell by cell: two answers have one text only if their rows tell the same. What a cell tells is a string, a truth, nothing,
/// or the digits of a number, whatever the type of the number is.
pub fn the_text_of_an_answer_tells_its_rows()
    ensures { (a b : Answer) → answer_line a ≡ answer_line b → map row_told a.rows ≡ map row_told b.rows }
{}

/// So the text of an answer has one reading: what a report tells of an answer to a query, over what was produced, it tells of one answer alone.
pub fn the_text_of_an_answer_has_one_reading()
    ensures { (schema : Schema) (log : Log) (query : Query) (text : List ℕ) (one other : CountsProduced schema log query text)
        → one.answer ≡ other.answer }
{}
