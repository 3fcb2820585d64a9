ghost use Rattle.std.specs.Prelude.{◌≡◌, ◌≤◌, Some, None, IfSome, IfNone, length};
ghost use Rattle.rt_lines.specs.Words.{after_prefix, field_of, parted_at, place_in};

use crate::numeral::number_up_to;

/// A text without the prefix that it begins with.
pub fn after_prefix<'a>(text: &'a [u8], prefix: &[u8]) -> Option<&'a [u8]>
    ensures some { IfSome result (λ rest. after_prefix prefix.now text.now ≡ Some rest.now) }
    ensures none { IfNone result (after_prefix prefix.now text.now ≡ None) }
{
    if text.starts_with(prefix) {
        Some(&text[prefix.len()..])
    } else {
        None
    }
}

/// What stands before the first of these bytes, and what behind it.
pub fn part_at(text: &[u8], byte: u8) -> Option<(&[u8], &[u8])>
    ensures some { IfSome result (λ parts. parted_at byte text.now ≡ Some (parts.0.now, parts.1.now)) }
    ensures none { IfNone result (parted_at byte text.now ≡ None) }
{
    let place = place_in(text, byte);
    if place < text.len() {
        Some((&text[..place], &text[place + 1..]))
    } else {
        None
    }
}

/// The number of `KEY=N`.
pub fn field(key: &[u8], word: &[u8]) -> Option<u64>
    ensures { result ≡ field_of key.now word.now }
{
    let word = after_prefix(word, key)?;
    number_up_to(u64::MAX, word)
}

fn place_in(text: &[u8], byte: u8) -> usize
    ensures place { result ≡ place_in byte text.now }
    ensures within { result ≤ length text.now }
{
    for (place, b) in text.iter().enumerate() {
        if *b == byte {
            return place;
        }
    }
    text.len()
}
