//! Bytes that are read from left to right.
ghost use Rattle.std.specs.Prelude.{◌≡◌, ◌+◌, ◌<◌, ◌^◌, ◌==◌, length};
ghost use Rattle.std.specs.Int.{w16, w32, w64};
ghost use Rattle.rt_segment.specs.Cursor.{Gives, bytes_at, number_at, byte_in};

use crate::segment_refused::SegmentRefused;
use std::marker::Model;

/// The bytes that are left of a file, and the place of the first of them.
#[derive(Drop)]
pub(crate) struct Cursor<'a> {
    rest: &'a [u8],
    place: u64,
}

impl<'a> Model for Cursor<'a> {
    ghost use Rattle.std.specs.Prelude.{◌+◌, ◌<◌, ◌^◌, length};
    ghost use Rattle.rt_segment.specs.Cursor.{Cursor as Reading};

    ghost Value = { Reading };

    ghost view = { λ a. record { place = a.place; left = a.rest.now } };

    ghost invariant = { λ a. a.place + length a.rest.now < 2 ^ 64 };
}

impl<'a> Cursor<'a> {
    /// All bytes of a file.
    pub(crate) fn new(bytes: &'a [u8]) -> Self
        ensures { result ≡ record { place = 0; left = bytes.now } }
    {
        Cursor {
            rest: bytes,
            place: 0,
        }
    }

    /// Another cursor at the same place.
    pub(crate) fn again(&self) -> Self
        ensures { result ≡ self.now }
    {
        Cursor {
            rest: self.rest,
            place: self.place,
        }
    }

    /// The place of the first byte that is left.
    pub(crate) fn place(&self) -> u64
        ensures place { result ≡ self.now.place }
        ensures within { result + length self.now.left < 2 ^ 64 }
    {
        self.place
    }

    /// Whether no byte is left.
    pub(crate) fn is_empty(&self) -> bool
        ensures { result ≡ (length self.now.left == 0) }
    {
        self.rest.is_empty()
    }

    /// The fault of a field that begins at the first byte that is left.
    pub(crate) fn breach(&self) -> SegmentRefused
        ensures { result ≡ SegmentRefused.NotCanonical self.now.place }
    {
        SegmentRefused::NotCanonical { byte: self.place }
    }

    /// Takes so many bytes.
    pub(crate) fn bytes(&mut self, count: usize) -> Result<&'a [u8], SegmentRefused>
        ensures { Gives (λ b. b.now) result self.new (bytes_at count self.old) }
    {
        if self.rest.len() < count {
            return Err(SegmentRefused::Truncated);
        }
        let (front, rest) = self.rest.split_at(count);
        self.rest = rest;
        self.place += count as u64;
        Ok(front)
    }

    /// Takes a byte.
    pub(crate) fn byte(&mut self) -> Result<u8, SegmentRefused>
        ensures { Gives (λ n. n) result self.new (byte_in self.old) }
    {
        let bytes = self.bytes(1)?;
        Ok(bytes[0])
    }

    /// Takes a number of 2 bytes.
    pub(crate) fn short(&mut self) -> Result<u16, SegmentRefused>
        ensures { Gives (λ n. n) result self.new (number_at w16 self.old) }
    {
        let b = self.bytes(2)?;
        Ok(u16::from_be_bytes([b[0], b[1]]))
    }

    /// Takes a number of 4 bytes.
    pub(crate) fn word(&mut self) -> Result<u32, SegmentRefused>
        ensures { Gives (λ n. n) result self.new (number_at w32 self.old) }
    {
        let b = self.bytes(4)?;
        Ok(u32::from_be_bytes([b[0], b[1], b[2], b[3]]))
    }

    /// Takes a number of 8 bytes.
    pub(crate) fn long(&mut self) -> Result<u64, SegmentRefused>
        ensures { Gives (λ n. n) result self.new (number_at w64 self.old) }
    {
        let b = self.bytes(8)?;
        Ok(u64::from_be_bytes([b[0], b[1], b[2], b[3], b[4], b[5], b[6], b[7]]))
    }
}
