ghost use Rattle.std.specs.Prelude.{◌≡◌, map};
ghost use Rattle.rt_play.specs.Words.{asked_of};

use crate::generating::Generated;
use rt_lines::word_number;

/// What a program's words ask for.
#[derive(Clone, Copy)]
pub(crate) enum Asked {
    /// A script is read from the source.
    Script,
    Generated(Generated),
}

/// What words ask for, if they are the program's: none, or `gen SEED PARTITIONS ROWS`.
pub(crate) fn read_words(words: &[&str]) -> Option<Asked>
    ensures { result ≡ asked_of (map (λ word. word.now) words.now) }
{
    match words {
        [] => Some(Asked::Script),
        [first, seed, partitions, rows] if *first == "gen" => {
            let seed = word_number(seed.as_bytes())?;
            let partitions = word_number(partitions.as_bytes())?;
            let rows = word_number(rows.as_bytes())?;
            Some(Asked::Generated(Generated {
                seed,
                partitions,
                rows,
            }))
        }
        _ => None,
    }
}
