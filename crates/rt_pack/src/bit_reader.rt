//! Bits that are read one after another out of bytes.
ghost use Rattle.std.specs.Prelude.{◌≡◌, ℕ, ◌+◌, ◌*◌, ◌^◌, ◌<◌, ◌≤◌, List, ◌++◌, length, drop};
ghost use Rattle.rt_pack.specs.Bits.{all_bits, bits_of, number_of};

use std::marker::Model;

/// The number whose bytes these are, the most significant first.
pub fn number_in(bytes: &[u8]) -> u64
    requires { length bytes.now ≤ 8 }
    ensures { result ≡ number_of (8 * length bytes.now) (all_bits 8 bytes.now) }
{
    let mut number = 0u64;
    for byte in bytes {
        number = (number << 8) | u64::from(*byte);
    }
    number
}

/// The bits that are left: some that are held, and those of the bytes from `at` on.
#[derive(Drop)]
pub struct BitReader<'a> {
    bytes: &'a [u8],
    at: usize,
    held: u64,
    count: u32,
}

impl<'a> Model for BitReader<'a> {
    ghost Value = { List ℕ };

    ghost view = { λ a. bits_of a.count a.held ++ all_bits 8 (drop a.at a.bytes.now) };

    ghost invariant = { λ a. (a.at ≤ length a.bytes.now) × (a.count < 32) × (a.held < 2 ^ a.count) };
}

impl<'a> BitReader<'a> {
    /// All bits of the bytes.
    pub fn new(bytes: &'a [u8]) -> Self
        ensures { result ≡ all_bits 8 bytes.now }
    {
        BitReader {
            bytes,
            at: 0,
            held: 0,
            count: 0,
        }
    }

    /// Takes the number that the first `width` bits are.
    pub fn take(&mut self, width: u32) -> u32
        requires narrow { width ≤ 32 }
        requires there { width ≤ length self.old }
        ensures value { result ≡ number_of width self.old }
        ensures rest { self.new ≡ drop width self.old }
    {
        if self.count < width {
            let end = self.bytes.len().min(self.at + 4);
            let word = &self.bytes[self.at..end];
            self.held = (self.held << (8 * word.len())) | number_in(word);
            self.count += 8 * word.len() as u32;
            self.at = end;
        }
        self.count -= width;
        let number = (self.held >> self.count) as u32;
        self.held &= (1 << self.count) - 1;
        number
    }
}
