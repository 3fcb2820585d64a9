ghost use Rattle.std.specs.Prelude.{◌≡◌, ◌++◌, OnOk, string_bytes};
ghost use Rattle.rt_report.specs.MessageTexts.{came_text, changed_text, ending_text, step_text, stepped_text};

use crate::heads::write_told;
use crate::message_texts::write_answer_to;
use rt_events::Event;
use rt_model::{JobStep, Reply, StepName, StepOutcome};
use std::alloc::{AllocError, Global};

/// `step cK jN STEP OUTCOME`, then ` reply mM STATUS` where it ended the job
pub(crate) fn write_stepped(
    alloc: Global,
    out: &mut String,
    event: &Event,
    step: &JobStep,
    message: Option<u64>,
) -> Result<(), AllocError>
    ensures { OnOk result (string_bytes out.new ≡ string_bytes out.old ++ stepped_text event.now step.now message) }
{
    write_told(out, event)?;
    let name = step_name(step.step);
    write!(out, " {name} ")?;
    write_came(out, step.outcome)?;
    write_ending(alloc, out, message, &step.reply)?;
    out.push_str("\n")
}

fn step_name(step: StepName) -> &'static str
    ensures { result.now ≡ step_text step }
{
    match step {
        StepName::Check => "check",
        StepName::Done => "done",
        StepName::Next => "next",
        StepName::IdealRead => "idealRead",
        StepName::IdealSet => "idealSet",
    }
}

// What came of a step.
fn write_came(out: &mut String, outcome: StepOutcome) -> Result<(), AllocError>
    ensures { OnOk result (string_bytes out.new ≡ string_bytes out.old ++ came_text outcome) }
{
    match outcome {
        StepOutcome::Fine => out.push_str("ok"),
        StepOutcome::Exists => out.push_str("exists"),
        StepOutcome::Changed { expected, found } => write_changed(out, expected, found),
        StepOutcome::NoNode => out.push_str("nonode"),
        StepOutcome::Bad => out.push_str("bad"),
        StepOutcome::Same => out.push_str("same"),
        StepOutcome::Gone => out.push_str("gone"),
        StepOutcome::Failed => out.push_str("failed"),
    }
}

/// `changed V W`
pub(crate) fn write_changed(out: &mut String, expected: u64, found: u64) -> Result<(), AllocError>
    ensures { OnOk result (string_bytes out.new ≡ string_bytes out.old ++ changed_text expected found) }
{
    write!(out, "changed {expected} {found}")
}

// The answer of a job that ended.
fn write_ending(
    alloc: Global,
    out: &mut String,
    message: Option<u64>,
    reply: &Option<Reply>,
) -> Result<(), AllocError>
    ensures { OnOk result (string_bytes out.new ≡ string_bytes out.old ++ ending_text message reply.now) }
{
    let Some(message) = message else {
        return Ok(());
    };
    let Some(reply) = reply else {
        return Ok(());
    };
    out.push_str(" ")?;
    write_answer_to(alloc, out, message, reply)
}
