ghost use Rattle.std.specs.Prelude.{◌≡◌, ◌++◌, OnOk, string_bytes};
ghost use Rattle.rt_report.specs.NodeTexts.{bare_text, failed_text, saw_text, up_text};

use crate::heads::{write_told, write_worded};
use crate::words::command_word;
use rt_events::Event;
use std::alloc::AllocError;

/// The event's own line, or `down NODE`
pub(crate) fn write_bare(out: &mut String, event: &Event) -> Result<(), AllocError>
    ensures { OnOk result (string_bytes out.new ≡ string_bytes out.old ++ bare_text event.now) }
{
    write_told(out, event)?;
    out.push_str("\n")
}

/// `up sK INCARNATION` or `up cK`
pub(crate) fn write_up(
    out: &mut String,
    event: &Event,
    incarnation: Option<u64>,
) -> Result<(), AllocError>
    ensures { OnOk result (string_bytes out.new ≡ string_bytes out.old ++ up_text event.now incarnation) }
{
    write_told(out, event)?;
    match incarnation {
        Some(incarnation) => write!(out, " {incarnation}\n"),
        None => out.push_str("\n"),
    }
}

/// `seen sK VERSION`
pub(crate) fn write_saw(out: &mut String, event: &Event, version: u64) -> Result<(), AllocError>
    ensures { OnOk result (string_bytes out.new ≡ string_bytes out.old ++ saw_text event.now version) }
{
    write_told(out, event)?;
    write!(out, " {version}\n")
}

/// `failed` with the event's line
pub(crate) fn write_failed(out: &mut String, event: &Event) -> Result<(), AllocError>
    ensures { OnOk result (string_bytes out.new ≡ string_bytes out.old ++ failed_text event.now) }
{
    out.push_str("failed ")?;
    write_worded(out, command_word(event), event)?;
    out.push_str("\n")
}
