//! Messages as most are written: the columns in the order of the schema, with no space and no escape.
ghost use Rattle.std.specs.Prelude.{◌≡◌, ◌≤◌, ◌<◌, ◌+◌, ◌^◌, [], ◌∷◌, ◌++◌, IfOk, IfSome, IsTrue, Some, decimal, length, pos, take, option_and_then, true};
ghost use Rattle.std.specs.Str.{is_utf8, IsUtf8};
ghost use Rattle.json.specs.Print.{quoted};
ghost use Rattle.json.specs.Reads.{token_of};
ghost use Rattle.serde_json.specs.Read.{read};
ghost use Rattle.serde_json.specs.View.{view};
ghost use Rattle.rt_schema.specs.Schema.{names_of, are_distinct};
ghost use Rattle.rt_schema.specs.Row.{row_in};
ghost use Rattle.rt_schema.specs.declared.value.Value.TheVariants.{Long, Time};
ghost use Rattle.rt_schema.specs.Plain.{comma_if, is_plain, are_plain, IsCellAt, IsScalarAt, IsTokenAt, ArePlain};

use crate::flat_reader::scalar;
use crate::row_reader::cell;
use crate::spare::Spare;
use crate::{Column, Kind, Row, Value};
use json::Token;
use rt_lists::{Items, Text};
use serde_json::{Number, Value as Json};
use std::alloc::{AllocError, Global};

/// Below it a number has room for one more digit in 64 bits.
const ROOM_FOR_DIGIT: u64 = 1_000_000_000_000_000_000;

/// The greatest number of 63 bits.
const GREATEST_LONG: u64 = 9_223_372_036_854_775_807;

/// The row of a message that is written so; None where it is written in another way. Where the first bytes tell that,
/// no more are read.
pub(crate) fn read_plain(
    alloc: Global,
    columns: &[Column],
    spare: &mut Spare,
    message: &[u8],
) -> Result<Option<Row>, AllocError>
    requires { are_distinct (names_of columns.now) ≡ true }
    ensures row { IfOk result (λ row. IfSome row (λ row. option_and_then (row_in columns.now) (read message.now) ≡ Some row)) }
    ensures text { IfOk result (λ row. IfSome row (λ _. is_utf8 message.now ≡ true)) }
{
    let Some(rest) = behind(b'{', message) else {
        return Ok(None);
    };
    let mut values = spare.values(alloc);
    match read_columns(alloc, columns, spare, rest, &mut values)? {
        Some(rest) if is_end(rest) => Ok(Some(Row { values })),
        _ => {
            spare.keep(Row { values });
            Ok(None)
        }
    }
}

/// Whether the end of the object is all that is left.
fn is_end(rest: &[u8]) -> bool
    ensures { IsTrue result → rest.now ≡ 125 ∷ [] }
{
    match behind(b'}', rest) {
        Some(rest) => rest.is_empty(),
        None => false,
    }
}

/// Reads the member of each column; what is left behind them. None where one of them isn't written so.
#[tactic(auto, using(crate::proofs::Plain::plain_all))]
fn read_columns<'a>(
    alloc: Global,
    columns: &[Column],
    spare: &mut Spare,
    text: &'a [u8],
    values: &mut Items<Value>,
) -> Result<Option<&'a [u8]>, AllocError>
    requires { values.old ≡ [] }
    ensures { IfOk result (λ rest. IfSome rest (λ rest. ArePlain columns.now text.now values.new rest.now)) }
{
    let mut rest = text;
    for place in 0..columns.len() {
        let column = &columns[place];
        let Some(behind) = behind_key(place > 0, column.name.as_str(), rest) else {
            return Ok(None);
        };
        let Some((value, behind)) = first_cell(alloc, column, spare, behind)? else {
            return Ok(None);
        };
        values.push(value)?;
        rest = behind;
    }
    Ok(Some(rest))
}

/// What stands behind a key.
#[tactic(auto, using(crate::proofs::Plain::key_front))]
fn behind_key<'a>(later: bool, name: &str, text: &'a [u8]) -> Option<&'a [u8]>
    ensures { IfSome result (λ rest. text.now ≡ comma_if later ++ (quoted name.now ++ 58 ∷ rest.now)) }
{
    let text = if later { behind(b',', text)? } else { text };
    let (key, rest) = plain_text(text)?;
    if key == name.as_bytes() {
        behind(b':', rest)
    } else {
        None
    }
}

/// What a column gets from the first token, and what stands behind it. Texts and numbers without a sign are looked for
/// first where the column is of their kind.
fn first_cell<'a>(
    alloc: Global,
    column: &Column,
    spare: &mut Spare,
    text: &'a [u8],
) -> Result<Option<(Value, &'a [u8])>, AllocError>
    ensures { IfOk result (λ found. IfSome found (λ p. IsCellAt column.now text.now p.0 p.1.now)) }
{
    match column.kind {
        Kind::Text => {
            if let Some((string, rest)) = plain_string(text) {
                let string = spare.text(alloc, string)?;
                return Ok(Some((Value::Text(Text::of(string)), rest)));
            }
        }
        Kind::Long => {
            if let Some((number, rest)) = plain_long(text) {
                return Ok(Some((long_value(number), rest)));
            }
        }
        Kind::Time => {
            if let Some((millis, rest)) = plain_long(text) {
                return Ok(Some((time_value(millis), rest)));
            }
        }
        Kind::Int | Kind::Bool => {}
    }
    any_cell(alloc, column, spare, text)
}

fn long_value(number: u64) -> Value
    requires { number < 2 ^ 63 }
    ensures { result ≡ Long (pos number) }
{
    Value::Long(number as i64)
}

fn time_value(millis: u64) -> Value
    requires { millis < 2 ^ 63 }
    ensures { result ≡ Time (pos millis) }
{
    Value::Time(millis as i64)
}

/// What a column gets from the first token, whatever it is.
fn any_cell<'a>(
    alloc: Global,
    column: &Column,
    spare: &mut Spare,
    text: &'a [u8],
) -> Result<Option<(Value, &'a [u8])>, AllocError>
    ensures { IfOk result (λ found. IfSome found (λ p. IsCellAt column.now text.now p.0 p.1.now)) }
{
    let Some((json, rest)) = first_scalar(alloc, spare, text)? else {
        return Ok(None);
    };
    match cell(alloc, column, Some(json))? {
        Some(value) => Ok(Some((value, rest))),
        None => Ok(None),
    }
}

/// A value that is no array and no object, and what stands behind it.
fn first_scalar<'a>(
    alloc: Global,
    spare: &mut Spare,
    text: &'a [u8],
) -> Result<Option<(Json, &'a [u8])>, AllocError>
    ensures { IfOk result (λ found. IfSome found (λ p. IsScalarAt text.now (view p.0) p.1.now)) }
{
    if let Some((number, rest)) = plain_integer(text) {
        return Ok(Some((Json::Number(Number::from(number)), rest)));
    }
    let Some((token, rest)) = first_token(text) else {
        return Ok(None);
    };
    match scalar(alloc, spare, token)? {
        Some(json) => Ok(Some((json, rest))),
        None => Ok(None),
    }
}

/// A number without a sign that 63 bits hold, and what stands behind it.
fn plain_long(text: &[u8]) -> Option<(u64, &[u8])>
    ensures text { IfSome result (λ p. text.now ≡ decimal p.0 ++ p.1.now) }
    ensures fits { IfSome result (λ p. p.0 < 2 ^ 63) }
{
    match plain_integer(text) {
        Some((number, rest)) if number <= GREATEST_LONG => Some((number, rest)),
        _ => None,
    }
}

/// A number without a sign, of at most 19 digits, and what stands behind it.
fn plain_integer(text: &[u8]) -> Option<(u64, &[u8])>
    ensures text { IfSome result (λ p. text.now ≡ decimal p.0 ++ p.1.now) }
    ensures fits { IfSome result (λ p. p.0 < 2 ^ 64) }
{
    let mut number = digit(*text.first()?)?;
    for at in 1..text.len() {
        let Some(last) = digit(text[at]) else {
            return Some((number, &text[at..]));
        };
        if number == 0 || number >= ROOM_FOR_DIGIT {
            return None;
        }
        number = number * 10 + last;
    }
    None
}

/// What a digit stands for.
fn digit(byte: u8) -> Option<u64>
    ensures byte { IfSome result (λ digit. byte ≡ 48 + digit) }
    ensures below { IfSome result (λ digit. digit < 10) }
{
    if byte.is_ascii_digit() {
        Some(u64::from(byte - b'0'))
    } else {
        None
    }
}

/// The token of a value that is no array and no object, and what stands behind it.
fn first_token(text: &[u8]) -> Option<(Token<'_>, &[u8])>
    ensures { IfSome result (λ p. IsTokenAt text.now (token_of p.0) p.1.now) }
{
    if let Some((string, rest)) = plain_string(text) {
        return Some((Token::String(string), rest));
    }
    match plain_number(text) {
        Some(found) => Some(found),
        None => plain_word(text),
    }
}

/// One of the words of JSON, and what stands behind it.
fn plain_word(text: &[u8]) -> Option<(Token<'_>, &[u8])>
    ensures { IfSome result (λ p. IsTokenAt text.now (token_of p.0) p.1.now) }
{
    if let Some(rest) = behind_all(b"true".as_slice(), text) {
        return Some((Token::Bool(true), rest));
    }
    if let Some(rest) = behind_all(b"false".as_slice(), text) {
        return Some((Token::Bool(false), rest));
    }
    match behind_all(b"null".as_slice(), text) {
        Some(rest) => Some((Token::Null, rest)),
        None => None,
    }
}

/// A text in quotes that is UTF-8, and what stands behind it.
fn plain_string(text: &[u8]) -> Option<(&str, &[u8])>
    ensures text { IfSome result (λ p. text.now ≡ quoted p.0.now ++ p.1.now) }
    ensures utf8 { IfSome result (λ p. IsUtf8 p.0.now) }
{
    let (string, rest) = plain_text(text)?;
    match str::from_utf8(string) {
        Ok(string) => Some((string, rest)),
        Err(_) => None,
    }
}

/// A text in quotes, and what stands behind it.
fn plain_text(text: &[u8]) -> Option<(&[u8], &[u8])>
    ensures { IfSome result (λ p. text.now ≡ quoted p.0.now ++ p.1.now) }
{
    let text = behind(b'"', text)?;
    let end = plain_end(text);
    let rest = behind(b'"', &text[end..])?;
    Some((&text[..end], rest))
}

/// How many bytes stand for themselves in a text in quotes.
#[tactic(auto, using(crate::proofs::Plain::plain_next))]
fn plain_end(text: &[u8]) -> usize
    ensures within { result ≤ length text.now }
    ensures plain { are_plain (take result text.now) ≡ true }
{
    for at in 0..text.len() {
        if !is_plain(text[at]) {
            return at;
        }
    }
    text.len()
}

/// Whether a byte stands for itself in a text in quotes.
fn is_plain(byte: u8) -> bool
    ensures { result ≡ is_plain byte }
{
    byte != b'"' && byte != b'\\' && byte >= 32
}

/// A number, and what stands behind it.
fn plain_number(text: &[u8]) -> Option<(Token<'_>, &[u8])>
    ensures { IfSome result (λ p. IsTokenAt text.now (token_of p.0) p.1.now) }
{
    let end = number_end(text);
    let Ok(numeral) = str::from_utf8(&text[..end]) else {
        return None;
    };
    if json::is_number(numeral) {
        Some((Token::Number(numeral), &text[end..]))
    } else {
        None
    }
}

/// How many digits and signs stand first.
fn number_end(text: &[u8]) -> usize
    ensures { result ≤ length text.now }
{
    for at in 0..text.len() {
        if !text[at].is_ascii_digit() && text[at] != b'-' {
            return at;
        }
    }
    text.len()
}

/// What stands behind a byte.
fn behind(byte: u8, text: &[u8]) -> Option<&[u8]>
    ensures { IfSome result (λ rest. text.now ≡ byte ∷ rest.now) }
{
    match text.split_first() {
        Some((first, rest)) if *first == byte => Some(rest),
        _ => None,
    }
}

/// What stands behind some bytes.
fn behind_all<'a>(first: &[u8], text: &'a [u8]) -> Option<&'a [u8]>
    ensures { IfSome result (λ rest. text.now ≡ first.now ++ rest.now) }
{
    let count = first.len();
    if count <= text.len() && &text[..count] == first {
        Some(&text[count..])
    } else {
        None
    }
}
