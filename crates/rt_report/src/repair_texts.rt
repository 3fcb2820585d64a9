ghost use Rattle.std.specs.Prelude.{◌≡◌, ◌++◌, OnOk, string_bytes};
ghost use Rattle.rt_report.specs.NodeTexts.{repair_text, repaired_text, retire_text, retired_text, segment_text};

use crate::heads::write_told;
use crate::job_texts::write_changed;
use crate::subject::partition_of;
use rt_base::{Partition, Sequence};
use rt_events::Event;
use rt_repair::{RepairStep, RetireStep};
use std::alloc::AllocError;

/// `repair cK P WHAT`
pub(crate) fn write_repaired(
    out: &mut String,
    event: &Event,
    step: RepairStep,
) -> Result<(), AllocError>
    ensures { OnOk result (string_bytes out.new ≡ string_bytes out.old ++ repaired_text event.now step) }
{
    write_told(out, event)?;
    out.push_str(" ")?;
    write_repair(out, partition_of(event), step)?;
    out.push_str("\n")
}

fn write_repair(out: &mut String, partition: Partition, step: RepairStep) -> Result<(), AllocError>
    ensures { OnOk result (string_bytes out.new ≡ string_bytes out.old ++ repair_text partition step) }
{
    match step {
        RepairStep::Listed => out.push_str("listed"),
        RepairStep::IdealRead => out.push_str("idealRead"),
        RepairStep::Created(sequence) => write_segment(out, "created", partition, sequence),
        RepairStep::Exists(sequence) => write_segment(out, "exists", partition, sequence),
        RepairStep::Abandoned(sequence) => write_segment(out, "abandoned", partition, sequence),
        RepairStep::IdealSet(version) => write!(out, "ideal {version}"),
        RepairStep::Changed { expected, found } => write_changed(out, expected, found),
        RepairStep::Gone(sequence) => write_segment(out, "gone", partition, sequence),
        RepairStep::Nothing => out.push_str("nothing"),
        RepairStep::Failed => out.push_str("failed"),
    }
}

/// `retain cK P WHAT`
pub(crate) fn write_retired(
    out: &mut String,
    event: &Event,
    step: RetireStep,
) -> Result<(), AllocError>
    ensures { OnOk result (string_bytes out.new ≡ string_bytes out.old ++ retired_text event.now step) }
{
    write_told(out, event)?;
    out.push_str(" ")?;
    write_retire(out, partition_of(event), step)?;
    out.push_str("\n")
}

fn write_retire(out: &mut String, partition: Partition, step: RetireStep) -> Result<(), AllocError>
    ensures { OnOk result (string_bytes out.new ≡ string_bytes out.old ++ retire_text partition step) }
{
    match step {
        RetireStep::Listed => out.push_str("listed"),
        RetireStep::IdealRead => out.push_str("idealRead"),
        RetireStep::Removed(sequence, version) => {
            write_segment(out, "removed", partition, sequence)?;
            write!(out, " {version}")
        }
        RetireStep::Deleted(sequence) => write_segment(out, "deleted", partition, sequence),
        RetireStep::Changed { expected, found } => write_changed(out, expected, found),
        RetireStep::Gone(sequence) => write_segment(out, "gone", partition, sequence),
        RetireStep::Nothing => out.push_str("nothing"),
        RetireStep::Failed => out.push_str("failed"),
    }
}

// A word, and a segment.
fn write_segment(
    out: &mut String,
    word: &str,
    partition: Partition,
    sequence: Sequence,
) -> Result<(), AllocError>
    ensures { OnOk result (string_bytes out.new ≡ string_bytes out.old ++ segment_text word.now partition sequence) }
{
    out.push_str(word)?;
    write!(out, " {}/{}", partition.0, sequence.0)
}
