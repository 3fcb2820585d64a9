//! The law of a script's parts. It stands on a function that does nothing: its clause is the law.
ghost use Rattle.std.specs.Prelude.{ℕ, List};
ghost use Rattle.rt_lines.specs.Lines.{parts_of};
ghost use Rattle.rt_play.specs.TextLines.{ArePartsOf};

/// The parts of a text have no newline, and joined by newlines they are the text, but for a newline at its end.
#[tactic(auto, using(crate::proofs::TextLines::are_parts))]
pub fn the_parts_of_a_text_are_the_text()
    ensures { (text : List ℕ) → ArePartsOf text (parts_of text) }
{}
