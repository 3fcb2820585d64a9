//! What the lines of a report tell: that a text has one reading, of all that the laws of the reader take from it.
ghost use Rattle.std.specs.Prelude.{◌≡◌, ℕ, Some};
ghost use Rattle.rt_events.specs.declared.event.Event.{Event};
ghost use Rattle.rt_events.specs.declared.outcome.Outcome.{Outcome};
ghost use Rattle.rt_model.specs.declared.node.Seen.{Seen};
ghost use Rattle.rt_model.specs.declared.replica_state.ReplicaState.{ReplicaState};
ghost use Rattle.rt_model.specs.declared.reply.ReplyStatus.{ReplyStatus};
ghost use Rattle.rt_play.specs.AnswerTexts.{IsWord};
ghost use Rattle.rt_play.specs.Ledger.{IsPaired};
ghost use Rattle.rt_play.specs.NotedWords.{FitsWords};
ghost use Rattle.rt_play.specs.Telling.{AreAlike, IsSeenFit, NoteTheSame, SameSeen};
ghost use Rattle.rt_report.specs.BrokerTexts.{shown_text};
ghost use Rattle.rt_report.specs.MacroTexts.{exchanged_text};
ghost use Rattle.rt_report.specs.Outcome.{outcome_text};

/// The text of an event tells what is noted of it: two outcomes with one text, whose steps of jobs name a message exactly where they have a
/// reply, and whose numbers fit 64 bits, leave the same notes, and what the one tells the other does. So a `report` line tells its message
/// and the offset of its commitEnd, a `deliver` line the job, a `job` line whether it has committed and whether it has ended, a `reply` line
/// the segment and where the replica then stands, a `retain` line the segment that is deleted, and a `show meta` line whether the segment
/// is DONE, and over which range.
pub fn the_text_of_an_event_tells_what_is_noted()
    ensures { (event : Event) (a b : Outcome) → FitsWords event a → FitsWords event b → IsPaired event a → IsPaired event b
        → outcome_text event a ≡ outcome_text event b → AreAlike event a b }
{}

/// The text of an exchange tells the message of its request, its answer and where the replica then stands, as far as they are noted: two
/// exchanges with one text, whose requests' numbers fit 64 bits, leave the same notes.
pub fn the_text_of_an_exchange_tells_what_is_noted()
    ensures { (m n k l : ℕ) (a b : ReplyStatus) (s t : ReplicaState) → IsWord m → IsWord n
        → exchanged_text m k a s ≡ exchanged_text n l b t → NoteTheSame m a s n b t }
{}

/// The text of a `show meta` line tells the segment's node whole: its version, its name, its start, its status, when it was written, and of a
/// commit its end, its path, its rows and the digits of its digest. Two nodes whose numbers fit 64 bits have one text only if they say the
/// same.
pub fn the_text_of_a_node_tells_it()
    ensures { (event : Event) (s t : Seen) → IsSeenFit s → IsSeenFit t → shown_text event (Some s) ≡ shown_text event (Some t) → SameSeen s t }
{}
