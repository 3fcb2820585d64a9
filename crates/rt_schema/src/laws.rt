ghost use Rattle.std.specs.Prelude.{◌≡◌, ◌↔◌, ℕ, List, Some};
ghost use Rattle.rt_schema.specs.Setting.{time_of_text};
ghost use Rattle.rt_schema.specs.Spelling.{Spells};

/// The time limit of a table is read from exactly the texts that spell a time, and as what they spell.
pub fn times_are_what_they_spell()
    ensures { (text : List ℕ) (millis : ℕ) → (time_of_text text ≡ Some millis) ↔ Spells text millis }
{}
