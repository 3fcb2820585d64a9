ghost use Rattle.std.specs.Prelude.{◌≡◌, true, false};
ghost use Rattle.rt_tokens.specs.Literals.{whole, or_zero, rows, or_none};

use rt_base::limits::MOST_ROWS;

/// The number of a literal, behind a minus or not; None where it has more than 64 signed bits.
pub fn whole(negative: bool, number: Option<u64>) -> Option<i64>
    ensures { result ≡ whole negative number }
{
    let number = number?;
    if negative {
        negated(number)
    } else {
        positive(number)
    }
}

fn positive(number: u64) -> Option<i64>
    ensures { result ≡ whole false (Some number) }
{
    if number < 1 << 63 {
        Some(number as i64)
    } else {
        None
    }
}

fn negated(number: u64) -> Option<i64>
    ensures { result ≡ whole true (Some number) }
{
    if number < 1 << 63 {
        Some(-(number as i64))
    } else if number == 1 << 63 {
        Some(i64::MIN)
    } else {
        None
    }
}

/// The number of a literal that is not yet known to have 64 signed bits.
pub fn whole_or_zero(negative: bool, number: Option<u64>) -> i64
    ensures { result ≡ or_zero (whole negative number) }
{
    whole(negative, number).unwrap_or(0)
}

/// How many rows LIMIT asks for; None where it is above 1,000,000.
pub fn rows(number: Option<u64>) -> Option<u32>
    ensures { result ≡ rows number }
{
    match number {
        Some(number) if number <= u64::from(MOST_ROWS) => Some(number as u32),
        _ => None,
    }
}

/// How many rows LIMIT asks for, where that is not yet known to be within its bound.
pub fn rows_or_none(number: Option<u64>) -> u32
    ensures { result ≡ or_none (rows number) }
{
    rows(number).unwrap_or(0)
}
