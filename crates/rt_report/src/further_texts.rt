ghost use Rattle.std.specs.Prelude.{◌≡◌, ◌++◌, OnOk, string_bytes};
ghost use Rattle.rt_report.specs.FurtherTexts.{
  boundary_text,
  forced_text,
  held_text,
  hybrid_text,
  latest_text,
  nooffline_text,
  offline_text,
  paused_text,
  resumed_text,
};

use crate::subject::write_replica;
use rt_base::{Instance, Partition, Sequence};
use rt_lines::answer_text;
use rt_model::Answer;
use std::alloc::{AllocError, Global};

/// Adds `latest ANSWER`: the answer from the latest row of each key.
pub fn write_latest(alloc: Global, out: &mut String, answer: &Answer) -> Result<(), AllocError>
    ensures { OnOk result (string_bytes out.new ≡ string_bytes out.old ++ latest_text answer.now) }
{
    let text = answer_text(alloc, answer)?;
    write!(out, "latest {text}\n")
}

/// Adds `offline ROWS`: how many rows were pushed.
pub fn write_offline(out: &mut String, rows: u32) -> Result<(), AllocError>
    ensures { OnOk result (string_bytes out.new ≡ string_bytes out.old ++ offline_text rows) }
{
    write!(out, "offline {rows}\n")
}

/// Adds `nooffline K`: why no rows were pushed, by the number of the refusal.
pub fn write_nooffline(out: &mut String, number: u32) -> Result<(), AllocError>
    ensures { OnOk result (string_bytes out.new ≡ string_bytes out.old ++ nooffline_text number) }
{
    write!(out, "nooffline {number}\n")
}

/// Adds `hybrid B ANSWER`: the answer from offline and realtime rows, with the boundary between them in milliseconds,
/// or `none`.
pub fn write_hybrid(
    alloc: Global,
    out: &mut String,
    boundary: Option<i64>,
    answer: &Answer,
) -> Result<(), AllocError>
    ensures { OnOk result (string_bytes out.new ≡ string_bytes out.old ++ hybrid_text boundary answer.now) }
{
    out.push_str("hybrid ")?;
    write_boundary(out, boundary)?;
    let text = answer_text(alloc, answer)?;
    write!(out, " {text}\n")
}

fn write_boundary(out: &mut String, boundary: Option<i64>) -> Result<(), AllocError>
    ensures { OnOk result (string_bytes out.new ≡ string_bytes out.old ++ boundary_text boundary) }
{
    match boundary {
        Some(boundary) => write!(out, "{boundary}"),
        None => out.push_str("none"),
    }
}

/// Adds `paused N`: how many replicas a pause forced.
pub fn write_paused(out: &mut String, forced: u64) -> Result<(), AllocError>
    ensures { OnOk result (string_bytes out.new ≡ string_bytes out.old ++ paused_text forced) }
{
    write!(out, "paused {forced}\n")
}

/// Adds `resumed`.
pub fn write_resumed(out: &mut String) -> Result<(), AllocError>
    ensures { OnOk result (string_bytes out.new ≡ string_bytes out.old ++ resumed_text) }
{
    out.push_str("resumed\n")
}

/// Adds `force fN COUNT`: a force job, and how many segments it has.
pub fn write_forced(out: &mut String, job: u64, count: u64) -> Result<(), AllocError>
    ensures { OnOk result (string_bytes out.new ≡ string_bytes out.old ++ forced_text job count) }
{
    write!(out, "force f{job} {count}\n")
}

/// Adds `paused sK P/Q`: a replica that doesn't begin to consume while the run is paused.
pub fn write_held(
    out: &mut String,
    instance: Instance,
    partition: Partition,
    sequence: Sequence,
) -> Result<(), AllocError>
    ensures { OnOk result (string_bytes out.new ≡ string_bytes out.old ++ held_text instance partition sequence) }
{
    out.push_str("paused ")?;
    write_replica(out, instance, partition, sequence)?;
    out.push_str("\n")
}
