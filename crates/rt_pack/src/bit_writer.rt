//! Bits that are written one after another into bytes.
ghost use Rattle.std.specs.Prelude.{◌≡◌, ℕ, ◌+◌, ◌/◌, ◌^◌, ◌<◌, ◌≤◌, List, [], ◌++◌, length, All, OnOk, OnErr, IfOk};
ghost use Rattle.rt_pack.specs.Bits.{all_bits, bits_of, numbers_of};

use std::alloc::{AllocError, Global};
use std::marker::Model;

/// Bits written so far: whole words of 32 bits in the bytes, and fewer than 32 bits that are held back.
#[derive(Drop)]
pub struct BitWriter {
    bytes: Vec<u8>,
    held: u64,
    count: u32,
}

impl Model for BitWriter {
    ghost Value = { List ℕ };

    ghost view = { λ a. all_bits 8 a.bytes.items ++ bits_of a.count a.held };

    ghost invariant = { λ a. All (λ byte. byte < 2 ^ 8) a.bytes.items × (a.count < 32) × (a.held < 2 ^ a.count) };
}

impl BitWriter {
    /// No bits, with room for so many bytes.
    pub fn with_capacity(alloc: Global, bytes: usize) -> Result<Self, AllocError>
        ensures { IfOk result (λ writer. writer ≡ []) }
    {
        Ok(BitWriter {
            bytes: Vec::with_capacity(alloc, bytes)?,
            held: 0,
            count: 0,
        })
    }

    /// Writes the lowest `width` bits of a number that has no others.
    pub fn push(&mut self, number: u32, width: u32) -> Result<(), AllocError>
        requires narrow { width ≤ 32 }
        requires fits { number < 2 ^ width }
        ensures ok { OnOk result (self.new ≡ self.old ++ bits_of width number) }
        ensures err { OnErr result (self.new ≡ self.old) }
    {
        let held = (self.held << width) | u64::from(number);
        let count = self.count + width;
        if count < 32 {
            self.held = held;
            self.count = count;
            return Ok(());
        }
        let left = count - 32;
        let word = (held >> left) as u32;
        self.bytes.extend_from_slice(&word.to_be_bytes())?;
        self.held = held & ((1 << left) - 1);
        self.count = left;
        Ok(())
    }

    /// The bytes of all bits; the bits that the last byte has beyond them are 0.
    pub fn finish(mut self) -> Result<Vec<u8>, AllocError>
        ensures { IfOk result (λ bytes. bytes.items ≡ numbers_of 8 ((length self + 7) / 8) self) }
    {
        let word = (self.held << (32 - self.count)) as u32;
        let filled = (self.count as usize).div_ceil(8);
        self.bytes.extend_from_slice(&word.to_be_bytes()[..filled])?;
        Ok(self.bytes)
    }
}
