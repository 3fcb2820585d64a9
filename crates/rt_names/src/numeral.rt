ghost use Rattle.std.specs.Prelude.{◌≡◌, ℕ, ◌^◌, ◌<◌, ◌↔◌, Some};
ghost use Rattle.std.specs.Fmt.{decimal};
ghost use Rattle.rt_names.specs.Parts.{is_led};

/// The number below 2^32 that a text is the decimal numeral of, if there is one. A numeral has no
/// sign, and no leading zero but where it is `0` alone.
pub(crate) fn number_of(text: &str) -> Option<u32>
    ensures { (n : ℕ) → (result ≡ Some n) ↔ ((n < 2 ^ 32) × (text.now ≡ decimal n)) }
{
    if is_led(text.as_bytes()) {
        return None;
    }
    text.parse().ok()
}

// Whether a numeral begins with a sign or with a zero that another byte follows.
fn is_led(digits: &[u8]) -> bool
    ensures { result ≡ is_led digits.now }
{
    match digits {
        [b'+', ..] => true,
        [b'0', _, ..] => true,
        _ => false,
    }
}
