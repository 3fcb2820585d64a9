//! The file of the rows of a push.
ghost use Rattle.std.specs.Prelude.{◌≡◌, ◌≤◌, [], All, length, IfOk};
ghost use Rattle.rt_schema.specs.Row.{IsRowOf};
ghost use Rattle.rt_schema.specs.Schema.{IsSchema};
ghost use Rattle.rt_mutable.specs.Consuming.{IsShort};
ghost use Rattle.rt_build.specs.Sealing.{IsSealOf};
ghost use Rattle.rt_hybrid.specs.Sealing.{consuming_of};

use rt_base::{Offset, Partition, Sequence};
use rt_build::seal_as;
use rt_lists::{Items, Text};
use rt_mutable::MutableSegment;
use rt_schema::{Column, Row, Schema};
use rt_segment::Sealed;
use std::alloc::{AllocError, Global};

/// The format of the files of a hybrid table: it has the least and the greatest value of each column, so that files are skipped.
const FORMAT: u8 = 2;

/// The file of some rows of some columns, of partition 0, with a sequence and the range from 0 to their number.
pub(crate) fn sealed(
    alloc: Global,
    columns: Items<Column>,
    rows: &[Row],
    sequence: u32,
) -> Result<Sealed, AllocError>
    requires schema { IsSchema (record { name = []; columns = columns }) }
    requires some { 1 ≤ length rows.now }
    requires few { length rows.now ≤ 10000 }
    requires fit { All (IsRowOf (record { name = []; columns = columns })) rows.now }
    requires short { All (λ row. All IsShort row.values) rows.now }
    ensures { IfOk result (IsSealOf 2 (record { 0 = 0 }) (record { 0 = sequence }) (record { 0 = length rows.now }) [] (consuming_of columns rows.now)) }
{
    let schema = Schema {
        name: Text::new(alloc),
        columns,
    };
    let segment = consumed(alloc, &schema, rows)?;
    let end = Offset(rows.len() as u64);
    seal_as(
        alloc,
        &segment,
        Partition(0),
        Sequence(sequence),
        end,
        &[],
        FORMAT,
    )
}

// A consuming segment that has taken some rows.
fn consumed(alloc: Global, schema: &Schema, rows: &[Row]) -> Result<MutableSegment, AllocError>
    requires schema { IsSchema schema.now }
    requires few { length rows.now ≤ 10000 }
    requires fit { All (IsRowOf schema.now) rows.now }
    requires short { All (λ row. All IsShort row.values) rows.now }
    ensures { IfOk result (λ segment. segment ≡ consuming_of schema.now.columns rows.now) }
{
    let mut segment = MutableSegment::make(alloc, schema, Offset(0))?;
    for row in rows {
        segment.index(alloc, Some(row))?;
    }
    Ok(segment)
}
