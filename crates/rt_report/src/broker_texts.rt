ghost use Rattle.std.specs.Prelude.{◌≡◌, ◌++◌, OnOk, string_bytes};
ghost use Rattle.rt_report.specs.BrokerTexts.{
  answer_line,
  asked_text,
  node_down_text,
  noquery_text,
  routed_text,
  served_text,
  unserved_text,
};

use crate::heads::{write_told, write_worded};
use rt_base::Range;
use rt_events::Event;
use rt_lines::answer_text;
use rt_model::Answer;
use std::alloc::{AllocError, Global};

/// `asked qN`
pub(crate) fn write_asked(out: &mut String, event: &Event, query: u32) -> Result<(), AllocError>
    ensures { OnOk result (string_bytes out.new ≡ string_bytes out.old ++ asked_text event.now query) }
{
    write_told(out, event)?;
    write!(out, "q{query}\n")
}

/// Adds the line that is reported of a text that is no query, by the number of its refusal.
pub fn write_noquery(out: &mut String, number: u32) -> Result<(), AllocError>
    ensures { OnOk result (string_bytes out.new ≡ string_bytes out.old ++ noquery_text number) }
{
    write!(out, "noquery {number}\n")
}

/// `routed qN P PIECES`
pub(crate) fn write_routed(out: &mut String, event: &Event, pieces: u32) -> Result<(), AllocError>
    ensures { OnOk result (string_bytes out.new ≡ string_bytes out.old ++ routed_text event.now pieces) }
{
    write_told(out, event)?;
    write!(out, " {pieces}\n")
}

/// `piece qN P/Q START END`
pub(crate) fn write_served(out: &mut String, event: &Event, range: Range) -> Result<(), AllocError>
    ensures { OnOk result (string_bytes out.new ≡ string_bytes out.old ++ served_text event.now range) }
{
    write_told(out, event)?;
    write!(out, " {} {}\n", range.start.0, range.end.0)
}

/// `notserved qN P/Q`
pub(crate) fn write_unserved(out: &mut String, event: &Event) -> Result<(), AllocError>
    ensures { OnOk result (string_bytes out.new ≡ string_bytes out.old ++ unserved_text event.now) }
{
    write_worded(out, "notserved", event)?;
    out.push_str("\n")
}

/// `nodedown qN P/Q`
pub(crate) fn write_node_down(out: &mut String, event: &Event) -> Result<(), AllocError>
    ensures { OnOk result (string_bytes out.new ≡ string_bytes out.old ++ node_down_text event.now) }
{
    write_worded(out, "nodedown", event)?;
    out.push_str("\n")
}

/// Adds the line of an answer: `answer ANSWER`.
pub fn write_answer(alloc: Global, out: &mut String, answer: &Answer) -> Result<(), AllocError>
    ensures { OnOk result (string_bytes out.new ≡ string_bytes out.old ++ answer_line answer.now) }
{
    out.push_str("answer ")?;
    let text = answer_text(alloc, answer)?;
    out.push_str(text.as_str())?;
    out.push_str("\n")
}
