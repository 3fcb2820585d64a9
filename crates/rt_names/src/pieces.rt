ghost use Rattle.std.specs.Prelude.{◌≡◌, ℕ, List, ◌++◌, codes, IfSome};
ghost use Rattle.std.specs.Option.{IsSomeAnd};
ghost use Rattle.rt_names.specs.Parts.{NoUnderscore, joined};

/// The pieces of a text that is split at its last three `__`.
#[derive(Drop)]
pub(crate) struct Pieces<'a> {
    pub table: &'a str,
    pub partition: &'a str,
    pub sequence: &'a str,
    pub minute: &'a str,
}

/// Splits a text at its last three `__`.
pub(crate) fn split(text: &str) -> Option<Pieces<'_>>
    ensures joined { IfSome result (λ p. text.now ≡ joined p.table.now p.partition.now p.sequence.now p.minute.now) }
    ensures last { (table partition sequence minute : List ℕ) →
        NoUnderscore partition → NoUnderscore sequence → NoUnderscore minute →
        text.now ≡ joined table partition sequence minute →
        IsSomeAnd result (λ p. (p.table.now ≡ table) × (p.partition.now ≡ partition) × (p.sequence.now ≡ sequence) × (p.minute.now ≡ minute)) }
{
    let (rest, minute) = cut_last(text)?;
    let (rest, sequence) = cut_last(rest)?;
    let (table, partition) = cut_last(rest)?;
    Some(Pieces {
        table,
        partition,
        sequence,
        minute,
    })
}

// Splits a text at its last `__`.
fn cut_last(text: &str) -> Option<(&str, &str)>
    ensures joined { IfSome result (λ x. text.now ≡ x.0.now ++ codes "__" ++ x.1.now) }
    ensures last { (front piece : List ℕ) → NoUnderscore piece → text.now ≡ front ++ codes "__" ++ piece →
        IsSomeAnd result (λ x. (x.0.now ≡ front) × (x.1.now ≡ piece)) }
{
    text.rsplit_once("__")
}
