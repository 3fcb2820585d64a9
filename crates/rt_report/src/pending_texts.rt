ghost use Rattle.std.specs.Prelude.{◌≡◌, ◌++◌, OnOk, map, string_bytes};
ghost use Rattle.rt_lines.specs.Answer.{array_of};
ghost use Rattle.rt_report.specs.FurtherTexts.{pair_text, pending_text};

use rt_base::{Partition, Sequence};
use rt_lines::write_comma;
use std::alloc::AllocError;

/// Adds `force fN pending=[[P,Q],..]`: the segments of a force job that aren't committed.
pub fn write_pending(
    out: &mut String,
    job: u64,
    segments: &[(Partition, Sequence)],
) -> Result<(), AllocError>
    ensures { OnOk result (string_bytes out.new ≡ string_bytes out.old ++ pending_text job segments.now) }
{
    write!(out, "force f{job} pending=")?;
    write_pairs(out, segments)?;
    out.push_str("\n")
}

fn write_pairs(out: &mut String, segments: &[(Partition, Sequence)]) -> Result<(), AllocError>
    ensures { OnOk result (string_bytes out.new ≡ string_bytes out.old ++ array_of (map pair_text segments.now)) }
{
    out.push('[')?;
    for (place, segment) in segments.iter().enumerate() {
        write_comma(out, place)?;
        write_pair(out, segment.0, segment.1)?;
    }
    out.push(']')
}

fn write_pair(out: &mut String, partition: Partition, sequence: Sequence) -> Result<(), AllocError>
    ensures { OnOk result (string_bytes out.new ≡ string_bytes out.old ++ pair_text (partition, sequence)) }
{
    write!(out, "[{},{}]", partition.0, sequence.0)
}
