ghost use Rattle.std.specs.Prelude.{◌≡◌, ◌++◌, OnOk, string_bytes};
ghost use Rattle.rt_report.specs.Outcome.{now_text, outcome_text, produced_text};

use crate::broker_texts::{
    write_answer, write_asked, write_node_down, write_routed, write_served, write_unserved,
};
use crate::heads::write_told;
use crate::job_texts::write_stepped;
use crate::message_texts::{write_ignored, write_replied, write_sent, write_started, write_took};
use crate::node_texts::{write_bare, write_failed, write_saw, write_up};
use crate::repair_texts::{write_repaired, write_retired};
use crate::replica_texts::{write_built, write_consumed, write_loaded, write_stands};
use crate::shown_texts::write_shown;
use rt_base::{Moment, Offset};
use rt_events::{Event, Outcome};
use std::alloc::{AllocError, Global};

/// Adds the line that is reported of an event that happened, with its newline.
pub fn write_outcome(
    alloc: Global,
    out: &mut String,
    event: &Event,
    outcome: &Outcome,
) -> Result<(), AllocError>
    ensures { OnOk result (string_bytes out.new ≡ string_bytes out.old ++ outcome_text event.now outcome.now) }
{
    match outcome {
        Outcome::Produced(offset) => write_produced(out, event, *offset),
        Outcome::Now(moment) => write_now(out, event, *moment),
        Outcome::Noted => write_bare(out, event),
        Outcome::Consumed { cur, rows, state } => write_consumed(out, event, *cur, *rows, *state),
        Outcome::Stands(state) => write_stands(out, event, *state),
        Outcome::Built { rows, state } => write_built(out, event, *rows, *state),
        Outcome::Sent { message, request } => write_sent(alloc, out, event, *message, request),
        Outcome::Replied { message, reply } => write_replied(alloc, out, *message, reply),
        Outcome::Started { job } => write_started(out, event, *job),
        Outcome::Stepped { step, message } => write_stepped(alloc, out, event, step, *message),
        Outcome::Took {
            instance,
            partition,
            sequence,
            state,
        } => write_took(out, event, *instance, *partition, *sequence, *state),
        Outcome::Ignored => write_ignored(out, event),
        Outcome::Down => write_bare(out, event),
        Outcome::Up { incarnation } => write_up(out, event, *incarnation),
        Outcome::SawIdeal(version) => write_saw(out, event, *version),
        Outcome::Loaded(rows) => write_loaded(out, event, *rows),
        Outcome::Failed => write_failed(out, event),
        Outcome::Repaired(step) => write_repaired(out, event, *step),
        Outcome::Retired(step) => write_retired(out, event, *step),
        Outcome::Asked(query) => write_asked(out, event, *query),
        Outcome::Routed(pieces) => write_routed(out, event, *pieces),
        Outcome::Served(range) => write_served(out, event, *range),
        Outcome::NotServed => write_unserved(out, event),
        Outcome::NodeDown => write_node_down(out, event),
        Outcome::Answered(answer) => write_answer(alloc, out, answer),
        Outcome::Shown(seen) => write_shown(alloc, out, event, seen),
    }
}

// `produced P@OFFSET`
fn write_produced(out: &mut String, event: &Event, offset: Offset) -> Result<(), AllocError>
    ensures { OnOk result (string_bytes out.new ≡ string_bytes out.old ++ produced_text event.now offset) }
{
    write_told(out, event)?;
    write!(out, "@{}\n", offset.0)
}

// `now MOMENT`
fn write_now(out: &mut String, event: &Event, moment: Moment) -> Result<(), AllocError>
    ensures { OnOk result (string_bytes out.new ≡ string_bytes out.old ++ now_text event.now moment) }
{
    write_told(out, event)?;
    write!(out, "{}\n", moment.0)
}
