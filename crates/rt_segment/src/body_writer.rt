//! A file up to its digest.
ghost use Rattle.std.specs.Prelude.{◌≡◌, IfOk};
ghost use Rattle.rt_segment.specs.Segment.{IsSealable};
ghost use Rattle.rt_segment.specs.Spelling.{magic, body_of};

use crate::column_writer::write_columns;
use crate::segment_column::SegmentColumn;
use rt_base::{Partition, Range, Sequence};
use std::alloc::{AllocError, Global};

/// The bytes before the digest.
pub(crate) fn write_body(
    alloc: Global,
    format: u8,
    partition: Partition,
    sequence: Sequence,
    range: Range,
    rows: u32,
    columns: &[SegmentColumn],
) -> Result<Vec<u8>, AllocError>
    requires { IsSealable (record { format = format; partition = partition; sequence = sequence; range = range; rows = rows; columns = columns.now }) }
    ensures { IfOk result (λ bytes. bytes.items ≡ body_of (record { format = format; partition = partition; sequence = sequence; range = range; rows = rows; columns = columns.now })) }
{
    let mut out = Vec::new(alloc);
    out.extend_from_slice(magic(format))?;
    out.extend_from_slice(&partition.0.to_be_bytes())?;
    out.extend_from_slice(&sequence.0.to_be_bytes())?;
    out.extend_from_slice(&range.start.0.to_be_bytes())?;
    out.extend_from_slice(&range.end.0.to_be_bytes())?;
    out.extend_from_slice(&rows.to_be_bytes())?;
    out.extend_from_slice(&(columns.len() as u16).to_be_bytes())?;
    write_columns(alloc, format, rows, columns, &mut out)?;
    Ok(out)
}

// The first 8 bytes.
fn magic(format: u8) -> &'static [u8]
    ensures { result.now ≡ magic format }
{
    if format == 1 {
        b"PNRTSEG1".as_slice()
    } else {
        b"PNRTSEG2".as_slice()
    }
}
