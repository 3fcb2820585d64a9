ghost use Rattle.std.specs.Prelude.{◌≡◌, ◌++◌, OnOk, string_bytes};
ghost use Rattle.rt_report.specs.MacroTexts.{end_text, exchanged_text, filled_text, numbers_text, settled_text};

use crate::replica_texts::state_name;
use rt_base::{Offset, Partition};
use rt_model::{ReplicaState, ReplyStatus};
use rt_msgs::status_text;
use std::alloc::{AllocError, Global};

/// Adds `filled P LENGTH`.
pub fn write_filled(
    out: &mut String,
    partition: Partition,
    length: Offset,
) -> Result<(), AllocError>
    ensures { OnOk result (string_bytes out.new ≡ string_bytes out.old ++ filled_text partition length) }
{
    write!(out, "filled {} {}\n", partition.0, length.0)
}

/// Adds `exchanged mN mM STATUS STATE`: the numbers of a request and of its answer, what is answered, and the
/// replica's state behind it.
pub fn write_exchanged(
    alloc: Global,
    out: &mut String,
    request: u64,
    reply: u64,
    status: &ReplyStatus,
    state: ReplicaState,
) -> Result<(), AllocError>
    ensures { OnOk result (string_bytes out.new ≡ string_bytes out.old ++ exchanged_text request reply status.now state) }
{
    write_numbers(out, request, reply)?;
    let status = status_text(alloc, status)?;
    out.push_str(status.as_str())?;
    let state = state_name(state);
    write!(out, " {state}\n")
}

// The numbers of a request and of its answer.
fn write_numbers(out: &mut String, request: u64, reply: u64) -> Result<(), AllocError>
    ensures { OnOk result (string_bytes out.new ≡ string_bytes out.old ++ numbers_text request reply) }
{
    write!(out, "exchanged m{request} m{reply} ")
}

/// Adds `settled` or `unsettled`.
pub fn write_settled(out: &mut String, settled: bool) -> Result<(), AllocError>
    ensures { OnOk result (string_bytes out.new ≡ string_bytes out.old ++ settled_text settled) }
{
    if settled {
        out.push_str("settled\n")
    } else {
        out.push_str("unsettled\n")
    }
}

/// Adds `end P E`: how far a partition is committed.
pub fn write_end(out: &mut String, partition: Partition, end: Offset) -> Result<(), AllocError>
    ensures { OnOk result (string_bytes out.new ≡ string_bytes out.old ++ end_text partition end) }
{
    write!(out, "end {} {}\n", partition.0, end.0)
}
