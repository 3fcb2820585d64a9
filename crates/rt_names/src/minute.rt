ghost use Rattle.std.specs.Prelude.{◌≡◌, ℕ, ◌+◌, ◌-◌, ◌*◌, ◌/◌, ◌%◌, ◌<◌, ◌≤◌, ◌↔◌, List, length, slice_index, Some, IsTrue, pos};
ghost use Rattle.jiff.specs.Words.{epoch_day};
ghost use Rattle.rt_names.specs.Calendar.{IsCivilDate};
ghost use Rattle.rt_names.specs.Minute.{digit, minute_form, minute_text, IsMinute, IsMinuteOf};

use jiff::ToSpan;
use jiff::civil::{Date, date};

const MILLIS_PER_DAY: u64 = 86_400_000;

const MILLIS_PER_HOUR: u64 = 3_600_000;

const MILLIS_PER_MINUTE: u64 = 60_000;

/// The minute of a moment in UTC, as `YYYYMMDDTHHmmZ`. The moment is in milliseconds since the
/// beginning of 1970 and no later than the end of the year 9999.
pub fn minute_of(millis: u64) -> [u8; 14]
    requires { millis ≤ 253_402_300_799_999 }
    ensures calendar { IsMinuteOf millis result }
    ensures text { result ≡ minute_text millis }
    ensures exists { IsMinute result }
{
    let date = date_of_day((millis / MILLIS_PER_DAY) as u32);
    let year = date.year() as u32;
    let month = date.month() as u32;
    let day = date.day() as u32;
    let hour = (millis / MILLIS_PER_HOUR % 24) as u32;
    let minute = (millis / MILLIS_PER_MINUTE % 60) as u32;
    form(year, month, day, hour, minute)
}

// A minute of a date, as a text.
fn form(year: u32, month: u32, day: u32, hour: u32, minute: u32) -> [u8; 14]
    ensures { result ≡ minute_form (record { year = year; month = month; day = day }) hour minute }
{
    [
        digit(year / 1000),
        digit(year / 100),
        digit(year / 10),
        digit(year),
        digit(month / 10),
        digit(month),
        digit(day / 10),
        digit(day),
        b'T',
        digit(hour / 10),
        digit(hour),
        digit(minute / 10),
        digit(minute),
        b'Z',
    ]
}

// The date a number of days after 1 January 1970.
fn date_of_day(days: u32) -> Date
    requires { days ≤ 2_932_896 }
    ensures { epoch_day result ≡ pos days }
{
    date(1970, 1, 1).checked_add((days as i64).days()).unwrap()
}

// The last digit of a number, in ASCII.
fn digit(number: u32) -> u8
    ensures { result ≡ digit number }
{
    b'0' + (number % 10) as u8
}

/// The minute that a text is, if it is one that `minute_of` gives.
pub(crate) fn minute_in(text: &str) -> Option<[u8; 14]>
    ensures { (minute : List ℕ) → (result ≡ Some minute) ↔ (IsMinute minute × (text.now ≡ minute)) }
{
    let bytes = text.as_bytes();
    if bytes.len() != 14 {
        return None;
    }
    let year = two_digits(bytes, 0) * 100 + two_digits(bytes, 2);
    let month = two_digits(bytes, 4);
    let day = two_digits(bytes, 6);
    let hour = two_digits(bytes, 9);
    let minute = two_digits(bytes, 11);
    if !is_date(year, month, day) || hour > 23 || minute > 59 {
        return None;
    }
    let written = form(year, month, day, hour, minute);
    if bytes == written.as_slice() {
        Some(written)
    } else {
        None
    }
}

// The number that two bytes at a place write, where they are digits.
fn two_digits(bytes: &[u8], at: usize) -> u32
    requires { at + 1 < length bytes.now }
    ensures { result ≡ (slice_index bytes.now at - 48) * 10 + (slice_index bytes.now (at + 1) - 48) }
{
    let tens = bytes[at].saturating_sub(b'0') as u32;
    let ones = bytes[at + 1].saturating_sub(b'0') as u32;
    tens * 10 + ones
}

// Whether the calendar has a date from 1970 to 9999.
fn is_date(year: u32, month: u32, day: u32) -> bool
    ensures { IsTrue result ↔ IsCivilDate (record { year = year; month = month; day = day }) }
{
    if year < 1970 || year > 9999 || month > 12 || day > 31 {
        return false;
    }
    Date::new(year as i16, month as i8, day as i8).is_ok()
}
