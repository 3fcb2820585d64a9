//! How many bits an id takes.
ghost use Rattle.std.specs.Prelude.{◌≡◌, ℕ, ◌^◌, ◌≤◌};
ghost use Rattle.rt_pack.specs.Width.{width_of};

/// The bits that each of `count` ids takes: 0 for a count of 0 or 1, else the least width whose ids reach the count.

pub fn width(count: u32) -> u32
    ensures value { result ≡ width_of count }
    ensures enough { count ≤ 2 ^ result }
    ensures least { (w : ℕ) → count ≤ 2 ^ w → result ≤ w }
    ensures narrow { result ≤ 32 }
{
    u32::BITS - count.saturating_sub(1).leading_zeros()
}
