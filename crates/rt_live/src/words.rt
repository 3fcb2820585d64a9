ghost use Rattle.std.specs.Prelude.{◌≡◌, map};
ghost use Rattle.rt_live.specs.Words.{journal_asked};

/// Whether a program's words ask for a journal, if they are the program's: none, or `--journal`.
pub(crate) fn journal_asked(words: &[&str]) -> Option<bool>
    ensures { result ≡ journal_asked (map (λ word. word.now) words.now) }
{
    match words {
        [] => Some(false),
        [first] if *first == "--journal" => Some(true),
        _ => None,
    }
}
