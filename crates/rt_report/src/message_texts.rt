ghost use Rattle.std.specs.Prelude.{◌≡◌, ◌++◌, OnOk, string_bytes};
ghost use Rattle.rt_report.specs.MessageTexts.{
  answered_text,
  ignored_text,
  replied_text,
  sent_text,
  started_text,
  took_text,
};

use crate::heads::{write_told, write_worded};
use crate::replica_texts::state_name;
use crate::subject::write_replica;
use rt_base::{Instance, Partition, Sequence};
use rt_events::Event;
use rt_model::{ReplicaState, Reply, Request};
use rt_msgs::{request_text, status_text};
use std::alloc::{AllocError, Global};

/// `sent mN REQUEST`
pub(crate) fn write_sent(
    alloc: Global,
    out: &mut String,
    event: &Event,
    message: u64,
    request: &Request,
) -> Result<(), AllocError>
    ensures { OnOk result (string_bytes out.new ≡ string_bytes out.old ++ sent_text event.now message request.now) }
{
    write_told(out, event)?;
    write!(out, "m{message} ")?;
    let request = request_text(alloc, request)?;
    out.push_str(request.as_str())?;
    out.push_str("\n")
}

/// `reply mM STATUS`, without a newline
pub(crate) fn write_answer_to(
    alloc: Global,
    out: &mut String,
    message: u64,
    reply: &Reply,
) -> Result<(), AllocError>
    ensures { OnOk result (string_bytes out.new ≡ string_bytes out.old ++ answered_text message reply.now) }
{
    write!(out, "reply m{message} ")?;
    let status = status_text(alloc, &reply.status)?;
    out.push_str(status.as_str())
}

/// `reply mM STATUS`
pub(crate) fn write_replied(
    alloc: Global,
    out: &mut String,
    message: u64,
    reply: &Reply,
) -> Result<(), AllocError>
    ensures { OnOk result (string_bytes out.new ≡ string_bytes out.old ++ replied_text message reply.now) }
{
    write_answer_to(alloc, out, message, reply)?;
    out.push_str("\n")
}

/// `job cK jN`
pub(crate) fn write_started(out: &mut String, event: &Event, job: u64) -> Result<(), AllocError>
    ensures { OnOk result (string_bytes out.new ≡ string_bytes out.old ++ started_text event.now job) }
{
    write_worded(out, "job", event)?;
    write!(out, " j{job}\n")
}

/// `took mN sK P/Q STATE`
pub(crate) fn write_took(
    out: &mut String,
    event: &Event,
    instance: Instance,
    partition: Partition,
    sequence: Sequence,
    state: ReplicaState,
) -> Result<(), AllocError>
    ensures { OnOk result (string_bytes out.new ≡ string_bytes out.old ++ took_text event.now instance partition sequence state) }
{
    write_told(out, event)?;
    out.push_str(" ")?;
    write_replica(out, instance, partition, sequence)?;
    let state = state_name(state);
    write!(out, " {state}\n")
}

/// `ignored mN`
pub(crate) fn write_ignored(out: &mut String, event: &Event) -> Result<(), AllocError>
    ensures { OnOk result (string_bytes out.new ≡ string_bytes out.old ++ ignored_text event.now) }
{
    write_worded(out, "ignored", event)?;
    out.push_str("\n")
}
