ghost use Rattle.std.specs.Prelude.{◌≡◌, ◌++◌, OnOk, codes, decimal, string_bytes};
ghost use Rattle.rt_report.specs.Subject.{
  kept_text,
  looking_subject,
  message_subject,
  node_subject,
  on_text,
  outside_subject,
  partition_of,
  replica_subject,
  replica_text,
  subject_text,
};

use rt_base::{ControllerId, Instance, Partition, Sequence};
use rt_events::Event;
use std::alloc::AllocError;

/// Adds what an event is about, as its report names it. An event is about something of one kind at most, and the
/// others add nothing.
pub(crate) fn write_subject(out: &mut String, event: &Event) -> Result<(), AllocError>
    ensures { OnOk result (string_bytes out.new ≡ string_bytes out.old ++ subject_text event.now) }
{
    write_outside(out, event)?;
    write_of_replica(out, event)?;
    write_message(out, event)?;
    write_node(out, event)?;
    write_looked_at(out, event)
}

// What lies outside the nodes.
fn write_outside(out: &mut String, event: &Event) -> Result<(), AllocError>
    ensures { OnOk result (string_bytes out.new ≡ string_bytes out.old ++ outside_subject event.now) }
{
    match event {
        Event::Produce { partition, .. } => write!(out, "{}", partition.0),
        Event::FaultStore { kept } => write_fault(out, "store ", *kept),
        Event::FaultDeep { kept } => write_fault(out, "deep ", *kept),
        _ => Ok(()),
    }
}

// A replica that does something.
fn write_of_replica(out: &mut String, event: &Event) -> Result<(), AllocError>
    ensures { OnOk result (string_bytes out.new ≡ string_bytes out.old ++ replica_subject event.now) }
{
    match event {
        Event::Consume {
            instance,
            partition,
            sequence,
            ..
        } => write_replica(out, *instance, *partition, *sequence),
        Event::Force {
            instance,
            partition,
            sequence,
        } => write_replica(out, *instance, *partition, *sequence),
        Event::Stop {
            instance,
            partition,
            sequence,
        } => write_replica(out, *instance, *partition, *sequence),
        Event::Build {
            instance,
            partition,
            sequence,
        } => write_replica(out, *instance, *partition, *sequence),
        Event::Transit {
            instance,
            partition,
            sequence,
        } => write_replica(out, *instance, *partition, *sequence),
        Event::Download {
            instance,
            partition,
            sequence,
        } => write_replica(out, *instance, *partition, *sequence),
        _ => Ok(()),
    }
}

// Who takes a message or makes a step of a job, and which.
fn write_message(out: &mut String, event: &Event) -> Result<(), AllocError>
    ensures { OnOk result (string_bytes out.new ≡ string_bytes out.old ++ message_subject event.now) }
{
    match event {
        Event::Deliver { controller, .. } => write!(out, "c{}", controller.0),
        Event::Job { controller, job } => write!(out, "c{} j{job}", controller.0),
        Event::Reply { message } => write!(out, "m{message}"),
        _ => Ok(()),
    }
}

// A node, and the partition that it looks after.
fn write_node(out: &mut String, event: &Event) -> Result<(), AllocError>
    ensures { OnOk result (string_bytes out.new ≡ string_bytes out.old ++ node_subject event.now) }
{
    match event {
        Event::Lead { controller, on } => write_lead(out, *controller, *on),
        Event::CrashServer { instance } => write!(out, "s{}", instance.0),
        Event::CrashController { controller } => write!(out, "c{}", controller.0),
        Event::RestartServer { instance } => write!(out, "s{}", instance.0),
        Event::RestartController { controller } => write!(out, "c{}", controller.0),
        Event::See { instance } => write!(out, "s{}", instance.0),
        Event::Repair {
            controller,
            partition,
        } => write!(out, "c{} {}", controller.0, partition.0),
        Event::Retain {
            controller,
            partition,
        } => write!(out, "c{} {}", controller.0, partition.0),
        _ => Ok(()),
    }
}

// A query with what it asks of, and the node of the store that is shown.
fn write_looked_at(out: &mut String, event: &Event) -> Result<(), AllocError>
    ensures { OnOk result (string_bytes out.new ≡ string_bytes out.old ++ looking_subject event.now) }
{
    match event {
        Event::Route { query, partition } => write!(out, "q{query} {}", partition.0),
        Event::Piece {
            query,
            partition,
            sequence,
            ..
        } => write!(out, "q{query} {}/{}", partition.0, sequence.0),
        Event::ShowMeta {
            partition,
            sequence,
        } => write!(out, "meta/{}/{}", partition.0, sequence.0),
        Event::ShowIdeal => out.push_str("ideal"),
        _ => Ok(()),
    }
}

/// `sK P/Q`
pub(crate) fn write_replica(
    out: &mut String,
    instance: Instance,
    partition: Partition,
    sequence: Sequence,
) -> Result<(), AllocError>
    ensures { OnOk result (string_bytes out.new ≡ string_bytes out.old ++ replica_text instance partition sequence) }
{
    write!(out, "s{} {}/{}", instance.0, partition.0, sequence.0)
}

// `cK on` or `cK off`
fn write_lead(out: &mut String, controller: ControllerId, on: bool) -> Result<(), AllocError>
    ensures { OnOk result (string_bytes out.new ≡ string_bytes out.old ++ (codes "c" ++ (decimal controller.0 ++ on_text on))) }
{
    write!(out, "c{}", controller.0)?;
    out.push_str(if on { " on" } else { " off" })
}

// `store kept`, `store lost`, `deep kept` or `deep lost`
fn write_fault(out: &mut String, store: &str, kept: bool) -> Result<(), AllocError>
    ensures { OnOk result (string_bytes out.new ≡ string_bytes out.old ++ (store.now ++ kept_text kept)) }
{
    out.push_str(store)?;
    out.push_str(if kept { "kept" } else { "lost" })
}

/// The partition that an event is about; the first, where it is about none.
pub(crate) fn partition_of(event: &Event) -> Partition
    ensures { result ≡ partition_of event.now }
{
    match event {
        Event::Produce { partition, .. } => *partition,
        Event::Tick { .. } => Partition(0),
        Event::Lead { .. } => Partition(0),
        Event::Consume { partition, .. } => *partition,
        Event::Force { partition, .. } => *partition,
        Event::Stop { partition, .. } => *partition,
        Event::Build { partition, .. } => *partition,
        Event::Report { partition, .. } => *partition,
        Event::Extend { partition, .. } => *partition,
        Event::Deliver { .. } => Partition(0),
        Event::Job { .. } => Partition(0),
        Event::Reply { .. } => Partition(0),
        Event::CrashServer { .. } => Partition(0),
        Event::CrashController { .. } => Partition(0),
        Event::RestartServer { .. } => Partition(0),
        Event::RestartController { .. } => Partition(0),
        Event::See { .. } => Partition(0),
        Event::Transit { partition, .. } => *partition,
        Event::Download { partition, .. } => *partition,
        Event::Repair { partition, .. } => *partition,
        Event::Retain { partition, .. } => *partition,
        Event::FaultStore { .. } => Partition(0),
        Event::FaultDeep { .. } => Partition(0),
        Event::Ask { .. } => Partition(0),
        Event::Route { partition, .. } => *partition,
        Event::Piece { partition, .. } => *partition,
        Event::Answer { .. } => Partition(0),
        Event::ShowMeta { partition, .. } => *partition,
        Event::ShowIdeal => Partition(0),
    }
}
