//! Texts out of bytes.
ghost use Rattle.std.specs.Prelude.{if◌then◌else◌, Ok, Err};
ghost use Rattle.std.specs.Str.{is_utf8};
ghost use Rattle.rt_segment.specs.Cursor.{Answers};

use crate::segment_refused::SegmentRefused;
use rt_lists::Text;
use std::alloc::Global;

/// The text of UTF-8 bytes; others are the given fault.
pub(crate) fn text_of(
    alloc: Global,
    bytes: &[u8],
    wrong: SegmentRefused,
) -> Result<Text, SegmentRefused>
    ensures { Answers (λ t. t) result (if is_utf8 bytes.now then Ok bytes.now else Err wrong) }
{
    match str::from_utf8(bytes) {
        Ok(text) => Ok(Text::copied_from(alloc, text)?),
        Err(_) => Err(wrong),
    }
}
