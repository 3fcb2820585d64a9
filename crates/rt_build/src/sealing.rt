ghost use Rattle.std.specs.Prelude.{◌≡◌, ◌<◌, ◌≤◌, ◌⊎◌, All, IsTrue, map, IfOk};
ghost use Rattle.rt_schema.specs.Schema.{is_among};
ghost use Rattle.rt_build.specs.Sealing.{IsSealOf};

use crate::sealed_columns::seal_columns;
use rt_base::{Offset, Partition, Range, Sequence};
use rt_lists::Text;
use rt_mutable::MutableSegment;
use rt_segment::Sealed;
use std::alloc::{AllocError, Global};

/// The format of a sealed segment's file, unless another is asked for.
const FORMAT: u8 = 2;

/// Seals the rows of offsets below an end, in format 2; the named columns are indexed. Fails only where
/// memory is refused.
pub fn seal(
    alloc: Global,
    rows: &MutableSegment,
    partition: Partition,
    sequence: Sequence,
    end: Offset,
    indexed: &[Text],
) -> Result<Sealed, AllocError>
    requires past { rows.now.start.0 < end.0 }
    requires within { end.0 ≤ rows.now.end.0 }
    requires names { All (λ name. IsTrue (is_among name (map (λ shape. shape.name) rows.now.columns))) indexed.now }
    ensures { IfOk result (IsSealOf 2 partition sequence end indexed.now rows.now) }
{
    seal_as(alloc, rows, partition, sequence, end, indexed, FORMAT)
}

/// Seals as `seal` does, in a format: 1 or 2.
pub fn seal_as(
    alloc: Global,
    rows: &MutableSegment,
    partition: Partition,
    sequence: Sequence,
    end: Offset,
    indexed: &[Text],
    format: u8,
) -> Result<Sealed, AllocError>
    requires past { rows.now.start.0 < end.0 }
    requires within { end.0 ≤ rows.now.end.0 }
    requires names { All (λ name. IsTrue (is_among name (map (λ shape. shape.name) rows.now.columns))) indexed.now }
    requires format { (format ≡ 1) ⊎ (format ≡ 2) }
    ensures { IfOk result (IsSealOf format partition sequence end indexed.now rows.now) }
{
    let count = rows.rows_below(end);
    let columns = seal_columns(alloc, rows, count, indexed)?;
    let range = Range {
        start: rows.start(),
        end,
    };
    Ok(Sealed::make(format, partition, sequence, range, count, columns))
}
