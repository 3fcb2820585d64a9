ghost use Rattle.std.specs.Prelude.{◌≡◌, ◌<◌, true, IfSome, IfNone};
ghost use Rattle.std.specs.Char.{is_ascii_digit};
ghost use Rattle.std.specs.List.{list_all};
ghost use Rattle.std.specs.Str.Parse.{digits_value};
ghost use Rattle.rt_lines.specs.Words.{is_numeral, number_up_to, word_number};

/// The number that a word writes, at most this one: decimal digits without sign or leading zeros.
pub fn number_up_to(most: u64, word: &[u8]) -> Option<u64>
    ensures { result ≡ number_up_to most word.now }
{
    if !is_numeral(word) {
        return None;
    }
    match value_of_digits(word) {
        Some(value) if value <= most => Some(value),
        _ => None,
    }
}

/// The number that a program's word writes: at most 20 decimal digits as they stand, whose value fits 64 bits.
pub fn word_number(word: &[u8]) -> Option<u64>
    ensures { result ≡ word_number word.now }
{
    if word.is_empty() || word.len() > 20 || !are_digits(word) {
        return None;
    }
    value_of_digits(word)
}

/// Whether a word is decimal digits without leading zeros.
pub fn is_numeral(word: &[u8]) -> bool
    ensures { result ≡ is_numeral word.now }
{
    match word {
        [] => false,
        [digit] => digit.is_ascii_digit(),
        [b'0', ..] => false,
        _ => are_digits(word),
    }
}

fn are_digits(word: &[u8]) -> bool
    ensures { result ≡ list_all is_ascii_digit word.now }
{
    word.iter().all(|b| b.is_ascii_digit())
}

// The number that digits write, where it fits 64 bits.
fn value_of_digits(digits: &[u8]) -> Option<u64>
    requires { list_all is_ascii_digit digits.now ≡ true }
    ensures some { IfSome result (λ value. value ≡ digits_value 10 digits.now) }
    ensures none { IfNone result (18446744073709551615 < digits_value 10 digits.now) }
{
    let mut value: u64 = 0;
    for digit in digits {
        value = match value.checked_mul(10) {
            Some(tens) => match tens.checked_add(u64::from(*digit - b'0')) {
                Some(more) => more,
                None => return None,
            },
            None => return None,
        };
    }
    Some(value)
}
