//! The fields of a file before its columns.
ghost use Rattle.std.specs.Prelude.{◌<◌, ◌≤◌, IfOk};
ghost use Rattle.rt_segment.specs.Cursor.{Gives, Answers};
ghost use Rattle.rt_segment.specs.Reading.{format_of, format_at, range_at, rows_at, column_count_at};

use crate::cursor::Cursor;
use crate::segment_refused::SegmentRefused;
use rt_base::limits::{MOST_COLUMNS, MOST_ROWS};
use rt_base::{Offset, Range};

/// The format that a file's first bytes name.
#[tactic(auto, unfolding(crate::specs::Reading::format_at))]
pub(crate) fn read_format(cursor: &mut Cursor<'_>) -> Result<u8, SegmentRefused>
    ensures { Gives (λ n. n) result cursor.new (format_at cursor.old) }
{
    let magic = cursor.bytes(8)?;
    format_in(magic)
}

fn format_in(magic: &[u8]) -> Result<u8, SegmentRefused>
    ensures { Answers (λ n. n) result (format_of magic.now) }
{
    if magic == b"PNRTSEG1".as_slice() {
        Ok(1)
    } else if magic == b"PNRTSEG2".as_slice() {
        Ok(2)
    } else {
        Err(SegmentRefused::Magic)
    }
}

/// The range of offsets, whose start is below its end.
#[tactic(auto, unfolding(crate::specs::Reading::range_at))]
pub(crate) fn read_range(cursor: &mut Cursor<'_>) -> Result<Range, SegmentRefused>
    ensures read { Gives (λ r. r) result cursor.new (range_at cursor.old) }
    ensures ordered { IfOk result (λ r. r.start.0 < r.end.0) }
{
    let start = cursor.long()?;
    let wrong = cursor.breach();
    let end = cursor.long()?;
    if start < end {
        Ok(Range {
            start: Offset(start),
            end: Offset(end),
        })
    } else {
        Err(wrong)
    }
}

/// The row count, at most that of the range's messages.
#[tactic(auto, unfolding(crate::specs::Reading::rows_at))]
pub(crate) fn read_rows(range: Range, cursor: &mut Cursor<'_>) -> Result<u32, SegmentRefused>
    requires { range.start.0 < range.end.0 }
    ensures read { Gives (λ n. n) result cursor.new (rows_at range cursor.old) }
    ensures few { IfOk result (λ n. n ≤ 1000000) }
{
    let wrong = cursor.breach();
    let rows = cursor.word()?;
    if rows > MOST_ROWS {
        Err(SegmentRefused::Limit)
    } else if u64::from(rows) > range.end.0 - range.start.0 {
        Err(wrong)
    } else {
        Ok(rows)
    }
}

/// The column count, at least 1.
#[tactic(auto, unfolding(crate::specs::Reading::column_count_at))]
pub(crate) fn read_column_count(cursor: &mut Cursor<'_>) -> Result<u16, SegmentRefused>
    ensures { Gives (λ n. n) result cursor.new (column_count_at cursor.old) }
{
    let wrong = cursor.breach();
    let count = cursor.short()?;
    if usize::from(count) > MOST_COLUMNS {
        Err(SegmentRefused::Limit)
    } else if count == 0 {
        Err(wrong)
    } else {
        Ok(count)
    }
}
