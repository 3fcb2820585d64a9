ghost use Rattle.std.specs.Prelude.{◌≡◌, ◌++◌, [], OnOk, string_bytes};
ghost use Rattle.rt_report.specs.Heads.{told_of, worded_text};

use crate::subject::write_subject;
use crate::words::told_word;
use rt_events::Event;
use std::alloc::AllocError;

/// Begins the report of an event that happened as it should.
pub(crate) fn write_told(out: &mut String, event: &Event) -> Result<(), AllocError>
    ensures { OnOk result (string_bytes out.new ≡ string_bytes out.old ++ told_of event.now []) }
{
    write_worded(out, told_word(event), event)
}

/// Begins the report of an event by this word.
pub(crate) fn write_worded(out: &mut String, word: &str, event: &Event) -> Result<(), AllocError>
    ensures { OnOk result (string_bytes out.new ≡ string_bytes out.old ++ worded_text word.now event.now []) }
{
    out.push_str(word)?;
    out.push_str(" ")?;
    write_subject(out, event)
}
