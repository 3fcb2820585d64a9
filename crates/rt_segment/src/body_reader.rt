//! A file up to its digest.
ghost use Rattle.rt_segment.specs.Cursor.{Gives};
ghost use Rattle.rt_segment.specs.Reading.{body_at};
ghost use Rattle.rt_segment.specs.Bodies.{segment_of};

use crate::column_reader::read_columns;
use crate::cursor::Cursor;
use crate::header_reader::{read_column_count, read_format, read_range, read_rows};
use crate::segment_column::SegmentColumn;
use crate::segment_refused::SegmentRefused;
use rt_base::{Partition, Range, Sequence};
use rt_lists::Items;
use std::alloc::Global;

/// The parts of a segment.
#[derive(Drop)]
pub(crate) struct Body {
    pub(crate) format: u8,
    pub(crate) partition: Partition,
    pub(crate) sequence: Sequence,
    pub(crate) range: Range,
    pub(crate) rows: u32,
    pub(crate) columns: Items<SegmentColumn>,
}

/// Reads the fields before the digest.
#[tactic(auto, unfolding(crate::specs::Reading::body_at))]
pub(crate) fn read_body(alloc: Global, cursor: &mut Cursor<'_>) -> Result<Body, SegmentRefused>
    ensures { Gives segment_of result cursor.new (body_at cursor.old) }
{
    let format = read_format(cursor)?;
    let partition = Partition(cursor.word()?);
    let sequence = Sequence(cursor.word()?);
    let range = read_range(cursor)?;
    let rows = read_rows(range, cursor)?;
    let count = read_column_count(cursor)?;
    let columns = read_columns(alloc, format, rows, count, cursor)?;
    Ok(Body {
        format,
        partition,
        sequence,
        range,
        rows,
        columns,
    })
}
