ghost use Rattle.std.specs.Prelude.{◌≡◌, ◌^◌, ◌<◌, ◌≤◌, true, length, IfSome, option_map};
ghost use Rattle.std.specs.Str.{all_ascii_digits};
ghost use Rattle.serde_json.specs.View.{view};
ghost use Rattle.rt_schema.specs.Setting.{read_digits, digits_of, number_of, digit_count, seen_part, part_of, if_ended, parts_of, time_of_text, time_of};

use serde_json::Value as Json;

/// A whole number, or a text of 1 to 18 digits.
pub(crate) fn number_of(json: &Json) -> Option<u64>
    ensures { result ≡ number_of (view json.now) }
{
    match json {
        Json::Number(number) => number.as_u64(),
        Json::String(text) => digits_of(text.as_bytes(), 18),
        _ => None,
    }
}

/// A time in milliseconds: a whole number, a text of 1 to 18 digits, or parts as `1h30m`.
pub(crate) fn time_of(json: &Json) -> Option<u64>
    ensures { result ≡ time_of (view json.now) }
{
    match json {
        Json::Number(number) => number.as_u64(),
        Json::String(text) => time_of_text(text.as_bytes()),
        _ => None,
    }
}

fn time_of_text(text: &[u8]) -> Option<u64>
    ensures { result ≡ time_of_text text.now }
{
    if let Some(millis) = digits_of(text, 18) {
        return Some(millis);
    }
    if text.is_empty() {
        return None;
    }
    parts_of(text)
}

// Days, hours, minutes and seconds in this order, each at most once.
fn parts_of(text: &[u8]) -> Option<u64>
    ensures { result ≡ parts_of text.now }
{
    let days = part_of(text, b'd')?;
    let hours = part_of(days.rest, b'h')?;
    let minutes = part_of(hours.rest, b'm')?;
    let seconds = part_of(minutes.rest, b's')?;
    let millis = 86_400_000 * days.count
        + 3_600_000 * hours.count
        + 60_000 * minutes.count
        + 1_000 * seconds.count;
    if_ended(seconds.rest, millis)
}

fn if_ended(rest: &[u8], millis: u64) -> Option<u64>
    ensures { result ≡ if_ended rest.now millis }
{
    if rest.is_empty() { Some(millis) } else { None }
}

/// How many of a unit a text begins with, and what follows.
#[derive(Clone, Copy, Drop)]
struct Part<'a> {
    count: u64,
    rest: &'a [u8],
}

// A part is 1 to 9 digits and the unit's letter. A text that begins with no part of the unit has none of it.
fn part_of(text: &[u8], letter: u8) -> Option<Part<'_>>
    requires { 0 < letter }
    ensures value { option_map seen_part result ≡ part_of letter text.now }
    ensures small { IfSome result (λ part. part.count < 10 ^ 9) }
{
    let digits = digit_count(text);
    if digits == text.len() || text[digits] != letter {
        return Some(Part {
            count: 0,
            rest: text,
        });
    }
    let count = digits_of(&text[..digits], 9)?;
    Some(Part {
        count,
        rest: &text[digits + 1..],
    })
}

// How many digits a text begins with.
fn digit_count(text: &[u8]) -> usize
    ensures count { result ≡ digit_count text.now }
    ensures within { result ≤ length text.now }
{
    for (place, byte) in text.iter().enumerate() {
        if !byte.is_ascii_digit() {
            return place;
        }
    }
    text.len()
}

// The number of a text of digits, of which there are at least one and at most so many.
fn digits_of(text: &[u8], most: usize) -> Option<u64>
    requires { most ≤ 18 }
    ensures value { result ≡ digits_of most text.now }
    ensures small { IfSome result (λ number. number < 10 ^ most) }
{
    if text.is_empty() || text.len() > most || !are_digits(text) {
        return None;
    }
    Some(read_digits(text))
}

fn are_digits(text: &[u8]) -> bool
    ensures { result ≡ all_ascii_digits text.now }
{
    for byte in text {
        if !byte.is_ascii_digit() {
            return false;
        }
    }
    true
}

fn read_digits(digits: &[u8]) -> u64
    requires few { length digits.now ≤ 18 }
    requires digits { all_ascii_digits digits.now ≡ true }
    ensures value { result ≡ read_digits 0 digits.now }
    ensures small { result < 10 ^ length digits.now }
{
    let mut number = 0;
    for digit in digits {
        number = 10 * number + u64::from(digit - b'0');
    }
    number
}
