ghost use Rattle.std.specs.Prelude.{◌≡◌, ◌<◌, ◌^◌, IfOk, OnOk, length, string_bytes, ◌++◌};
ghost use Rattle.rt_live.specs.Printed.{printed, shown_text};

use rt_base::Offset;
use rt_live_output::{Journal, write_journal, write_output};
use rt_model::Answer;
use std::alloc::{AllocError, Global};

/// What is printed of a run: its answers, its ends and, where there is one, its journal. Fails only where memory is refused.
pub(crate) fn output_of(
    alloc: Global,
    answers: &[Answer],
    ends: &[Offset],
    journal: &Option<Journal>,
) -> Result<String, AllocError>
    requires { length ends.now < 2 ^ 32 }
    ensures { IfOk result (λ text. string_bytes text ≡ printed answers.now ends.now journal.now) }
{
    let mut text = String::new(alloc);
    write_output(alloc, &mut text, answers, ends)?;
    write_shown(alloc, &mut text, journal)?;
    Ok(text)
}

// Adds the journal, where there is one.
fn write_shown(
    alloc: Global,
    text: &mut String,
    journal: &Option<Journal>,
) -> Result<(), AllocError>
    ensures { OnOk result (string_bytes text.new ≡ string_bytes text.old ++ shown_text journal.now) }
{
    match journal {
        Some(journal) => write_journal(alloc, text, journal),
        None => Ok(()),
    }
}
