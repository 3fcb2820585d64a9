//! The values of dictionaries as a file has them.
ghost use Rattle.std.specs.Prelude.{◌≡◌, ◌≤◌, ◌++◌, FitsSigned, List, ℕ, length, OnOk};
ghost use Rattle.std.specs.Int.{w32, w64};
ghost use Rattle.std.specs.Str.{IsUtf8};
ghost use Rattle.rt_segment.specs.Cursor.{Cursor as Reading, Read, Gives};
ghost use Rattle.rt_segment.specs.Reading.{int_at, long_at, text_at, bool_at};
ghost use Rattle.rt_segment.specs.Spelling.{int_bytes, long_bytes, text_bytes, bool_bytes, capped};

use crate::cursor::Cursor;
use crate::segment_refused::SegmentRefused;
use crate::texts::text_of;
use rt_base::limits::LONGEST_MESSAGE;
use rt_dict::Key;
use rt_lists::Text;
use std::alloc::{AllocError, Global};

/// A value that a file has in a dictionary.
pub(crate) trait Stored: Key {
    // The bytes of a value.
    ghost spelled: { Self → List ℕ };

    // How it is read.
    ghost at: { Reading → Read Self };

    // What every value is by its type.
    ghost fits: { Self → Type 0 };

    // What has to be known of a value before it is written.
    ghost short: { Self → Type 0 };

    /// Reads a value.
    fn read(alloc: Global, cursor: &mut Cursor<'_>) -> Result<Self, SegmentRefused>
        ensures { Gives (λ v. v) result cursor.new (at cursor.old) };

    /// Writes a value at the end.
    fn write(&self, out: &mut Vec<u8>) -> Result<(), AllocError>
        requires { short self.now }
        ensures { OnOk result (out.new.items ≡ out.old.items ++ spelled self.now) };

    /// How many bytes it takes.
    fn size(&self) -> usize
        ensures size { result ≡ capped (length (spelled self.now)) }
        ensures fits { fits self.now };
}

impl Stored for i32 {
    ghost spelled = { int_bytes };

    ghost at = { int_at };

    ghost fits = { FitsSigned w32 };

    ghost short = { λ v. Unit {0} };

    fn read(_alloc: Global, cursor: &mut Cursor<'_>) -> Result<i32, SegmentRefused> {
        let number = cursor.word()?;
        Ok(number.cast_signed())
    }

    fn write(&self, out: &mut Vec<u8>) -> Result<(), AllocError> {
        out.extend_from_slice(&self.to_be_bytes())?;
        Ok(())
    }

    fn size(&self) -> usize {
        let _value = *self;
        4
    }
}

impl Stored for i64 {
    ghost spelled = { long_bytes };

    ghost at = { long_at };

    ghost fits = { FitsSigned w64 };

    ghost short = { λ v. Unit {0} };

    fn read(_alloc: Global, cursor: &mut Cursor<'_>) -> Result<i64, SegmentRefused> {
        let number = cursor.long()?;
        Ok(number.cast_signed())
    }

    fn write(&self, out: &mut Vec<u8>) -> Result<(), AllocError> {
        out.extend_from_slice(&self.to_be_bytes())?;
        Ok(())
    }

    fn size(&self) -> usize {
        let _value = *self;
        8
    }
}

impl Stored for bool {
    ghost spelled = { bool_bytes };

    ghost at = { bool_at };

    ghost fits = { λ v. Unit {0} };

    ghost short = { λ v. Unit {0} };

    #[tactic(auto, unfolding(crate::specs::Reading::bool_at))]
    fn read(_alloc: Global, cursor: &mut Cursor<'_>) -> Result<bool, SegmentRefused> {
        let wrong = cursor.breach();
        match cursor.byte()? {
            0 => Ok(false),
            1 => Ok(true),
            _ => Err(wrong),
        }
    }

    fn write(&self, out: &mut Vec<u8>) -> Result<(), AllocError> {
        out.push(if *self { 1 } else { 0 })?;
        Ok(())
    }

    fn size(&self) -> usize {
        1
    }
}

impl Stored for Text {
    ghost spelled = { text_bytes };

    ghost at = { text_at };

    ghost fits = { IsUtf8 };

    ghost short = { λ t. length t ≤ 65536 };

    #[tactic(auto, unfolding(crate::specs::Reading::text_at))]
    fn read(alloc: Global, cursor: &mut Cursor<'_>) -> Result<Text, SegmentRefused> {
        let wrong = cursor.breach();
        let len = cursor.word()?;
        if len as usize > LONGEST_MESSAGE {
            return Err(SegmentRefused::Limit);
        }
        let bytes = cursor.bytes(len as usize)?;
        text_of(alloc, bytes, wrong)
    }

    fn write(&self, out: &mut Vec<u8>) -> Result<(), AllocError> {
        out.extend_from_slice(&(self.len() as u32).to_be_bytes())?;
        out.extend_from_slice(self.as_bytes())?;
        Ok(())
    }

    fn size(&self) -> usize {
        let text = self.as_str();
        text.len().saturating_add(4)
    }
}
