ghost use Rattle.std.specs.Prelude.{◌≡◌, ◌++◌, OnOk, string_bytes};
ghost use Rattle.rt_report.specs.FurtherTexts.{
  at_text,
  nopeer_text,
  noplan_text,
  peer_text,
  plan_text,
  rehearsed_text,
};

use crate::subject::write_replica;
use rt_base::{Instance, Partition, Sequence};
use std::alloc::AllocError;

/// Adds `peer sK P/Q from sJ rows=Y`: from which server a segment's file was fetched, and its rows.
pub fn write_peer(
    out: &mut String,
    instance: Instance,
    partition: Partition,
    sequence: Sequence,
    from: Instance,
    rows: u32,
) -> Result<(), AllocError>
    ensures { OnOk result (string_bytes out.new ≡ string_bytes out.old ++ peer_text instance partition sequence from rows) }
{
    out.push_str("peer ")?;
    write_replica(out, instance, partition, sequence)?;
    write!(out, " from s{} rows={rows}\n", from.0)
}

/// Adds `nopeer sK P/Q`: no server has the file.
pub fn write_nopeer(
    out: &mut String,
    instance: Instance,
    partition: Partition,
    sequence: Sequence,
) -> Result<(), AllocError>
    ensures { OnOk result (string_bytes out.new ≡ string_bytes out.old ++ nopeer_text instance partition sequence) }
{
    out.push_str("nopeer ")?;
    write_replica(out, instance, partition, sequence)?;
    out.push_str("\n")
}

/// Adds `plan STEPS MOVES`: the steps of a plan, and how many replicas it adds.
pub fn write_plan(out: &mut String, steps: u64, moves: u64) -> Result<(), AllocError>
    ensures { OnOk result (string_bytes out.new ≡ string_bytes out.old ++ plan_text steps moves) }
{
    write!(out, "plan {steps} {moves}\n")
}

/// Adds `noplan K`: why there is no plan, or no step of it, by the number of the refusal.
pub fn write_noplan(out: &mut String, number: u32) -> Result<(), AllocError>
    ensures { OnOk result (string_bytes out.new ≡ string_bytes out.old ++ noplan_text number) }
{
    write!(out, "noplan {number}\n")
}

/// Adds `rehearsed`, or `notplanned` where the plan's present state has no such replica.
pub fn write_rehearsed(out: &mut String, planned: bool) -> Result<(), AllocError>
    ensures { OnOk result (string_bytes out.new ≡ string_bytes out.old ++ rehearsed_text planned) }
{
    if planned {
        out.push_str("rehearsed\n")
    } else {
        out.push_str("notplanned\n")
    }
}

/// Adds `at I/STEPS`: the state that a plan is at, of its steps.
pub fn write_at(out: &mut String, state: u64, steps: u64) -> Result<(), AllocError>
    ensures { OnOk result (string_bytes out.new ≡ string_bytes out.old ++ at_text state steps) }
{
    write!(out, "at {state}/{steps}\n")
}
