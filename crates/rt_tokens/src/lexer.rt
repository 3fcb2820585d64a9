ghost use Rattle.std.specs.Prelude.{◌≡◌, ◌+◌, ◌-◌, ◌≤◌, ◌<◌, true, length, drop, slice_index, IfOk, IfSome, Some};
ghost use Rattle.std.specs.Char.{is_ascii_digit};
ghost use Rattle.std.specs.List.{prefix_len};
ghost use Rattle.rt_tokens.specs.Tokens.{is_blank, is_name_start, is_name_byte, is_quotable, named, numbered, number_from, with_digit, quoted, quoted_text, first_token, tokens_of};
ghost use Rattle.rt_tokens.specs.Written.{Tile};

use crate::content::content_at;
use crate::lexeme::Lexeme;
use crate::signs::sign;
use crate::token::Token;
use crate::words::lexeme_of;
use rt_base::limits::LONGEST_NAME;
use rt_lists::{Items, Text};
use std::alloc::{AllocError, Global};

/// A token, and how many bytes it has.
#[derive(Drop)]
pub(crate) struct Lexed {
    pub(crate) lexeme: Lexeme,
    pub(crate) length: usize,
}

/// The tokens of a text, up to the first bytes that are none.
pub fn tokens_of(alloc: Global, text: &str) -> Result<Items<Token>, AllocError>
    requires { length text.now ≤ 65_536 }
    ensures value { IfOk result (λ tokens. tokens ≡ tokens_of text.now) }
    // The text is blanks and what is written for these tokens, each at its byte and none within another.
    ensures tiled { IfOk result (λ tokens. Tile 0 text.now tokens) }
{
    read(alloc, text)
}

fn read(alloc: Global, text: &str) -> Result<Items<Token>, AllocError>
    requires { length text.now ≤ 65_536 }
    ensures { IfOk result (λ tokens. tokens ≡ tokens_of text.now) }
{
    let bytes = text.as_bytes();
    let mut tokens = Items::new(alloc);
    let mut at = 0;
    while at < bytes.len() {
        if is_blank(bytes[at]) {
            at += 1;
            continue;
        }
        let byte = at as u64;
        match first_token(alloc, text, at)? {
            None => {
                tokens.push(Token {
                    byte,
                    lexeme: Lexeme::Unread,
                })?;
                return Ok(tokens);
            }
            Some(found) => {
                tokens.push(Token {
                    byte,
                    lexeme: found.lexeme,
                })?;
                at += found.length;
            }
        }
    }
    Ok(tokens)
}

fn is_blank(byte: u8) -> bool
    ensures { result ≡ is_blank byte }
{
    byte == b' ' || byte == b'\t'
}

// The token that begins at a byte, if one does.
fn first_token(alloc: Global, text: &str, at: usize) -> Result<Option<Lexed>, AllocError>
    requires { at < length text.now }
    ensures value { IfOk result (λ found. found ≡ first_token (drop at text.now)) }
    ensures within { IfOk result (λ found. IfSome found (λ l. (0 < l.length) × (at + l.length ≤ length text.now))) }
{
    let bytes = rest_of(text, at);
    let first = bytes[0];
    if is_name_start(first) {
        return Ok(Some(name(alloc, text, at)?));
    }
    if first.is_ascii_digit() {
        return Ok(Some(number(bytes)));
    }
    if first == b'"' {
        return quoted(alloc, text, at + 1);
    }
    if first == b'\'' {
        return text_in_quotes(alloc, text, at + 1);
    }
    let next = second(bytes);
    Ok(sign(first, next))
}

// The bytes of a text from a place on.
fn rest_of(text: &str, at: usize) -> &[u8]
    requires { at ≤ length text.now }
    ensures value { result.now ≡ drop at text.now }
    ensures len { length result.now + at ≡ length text.now }
    ensures first { slice_index result.now 0 ≡ slice_index text.now at }
{
    &text.as_bytes()[at..]
}

// The second byte, or 0 where there is none.
fn second(bytes: &[u8]) -> u8
    ensures value { result ≡ slice_index bytes.now 1 }
    ensures within { 0 < result → 1 < length bytes.now }
{
    match bytes {
        [_, next, ..] => *next,
        _ => 0,
    }
}

// A plain name, or a word of the grammar.
fn name(alloc: Global, text: &str, at: usize) -> Result<Lexed, AllocError>
    requires within { at < length text.now }
    requires first { is_name_start (slice_index text.now at) ≡ true }
    ensures value { IfOk result (λ found. found ≡ named (drop at text.now)) }
    ensures within { IfOk result (λ found. (0 < found.length) × (at + found.length ≤ length text.now)) }
{
    let length = name_length(rest_of(text, at));
    let name = &text[at..at + length];
    Ok(Lexed {
        lexeme: lexeme_of(alloc, name)?,
        length,
    })
}

fn is_name_start(byte: u8) -> bool
    ensures { result ≡ is_name_start byte }
{
    byte.is_ascii_alphabetic() || byte == b'_'
}

// How many bytes of a name a text begins with.
fn name_length(bytes: &[u8]) -> usize
    ensures length { result ≡ prefix_len is_name_byte bytes.now }
    ensures within { result ≤ length bytes.now }
{
    for (length, byte) in bytes.iter().enumerate() {
        if !(byte.is_ascii_alphanumeric() || *byte == b'_') {
            return length;
        }
    }
    bytes.len()
}

// The number that a text begins with.
fn number(bytes: &[u8]) -> Lexed
    requires { 0 < length bytes.now }
    ensures value { result ≡ numbered bytes.now }
    ensures within { result.length ≤ length bytes.now }
{
    let length = digits_length(bytes);
    Lexed {
        lexeme: Lexeme::Number(number_of(&bytes[..length])),
        length,
    }
}

// How many digits a text begins with.
fn digits_length(bytes: &[u8]) -> usize
    ensures length { result ≡ prefix_len is_ascii_digit bytes.now }
    ensures within { result ≤ length bytes.now }
{
    for (length, byte) in bytes.iter().enumerate() {
        if !byte.is_ascii_digit() {
            return length;
        }
    }
    bytes.len()
}

// The number of digits, where it is below 2^64.
fn number_of(digits: &[u8]) -> Option<u64>
    ensures { result ≡ number_from (Some 0) digits.now }
{
    let mut number = Some(0);
    for digit in digits {
        number = with_digit(number, *digit);
    }
    number
}

fn with_digit(number: Option<u64>, digit: u8) -> Option<u64>
    ensures { result ≡ with_digit number digit }
{
    number?
        .checked_mul(10)?
        .checked_add(u64::from(digit.saturating_sub(b'0')))
}

// A name in double quotes, of which the first stands before it.
fn quoted(alloc: Global, text: &str, at: usize) -> Result<Option<Lexed>, AllocError>
    requires within { (0 < at) × (at ≤ length text.now) }
    requires quote { slice_index text.now (at - 1) ≡ 34 }
    ensures value { IfOk result (λ found. found ≡ quoted (drop at text.now)) }
    ensures within { IfOk result (λ found. IfSome found (λ l. (0 < l.length) × (at + l.length ≤ length text.now + 1))) }
{
    let bytes = rest_of(text, at);
    let length = quotable_length(bytes);
    if length == bytes.len() || bytes[length] != b'"' || length == 0 || length > LONGEST_NAME {
        return Ok(None);
    }
    let name = Text::copied_from(alloc, &text[at..at + length])?;
    Ok(Some(Lexed {
        lexeme: Lexeme::Name(name),
        length: length + 2,
    }))
}

// How many bytes stand before a double quote or a newline.
fn quotable_length(bytes: &[u8]) -> usize
    ensures length { result ≡ prefix_len is_quotable bytes.now }
    ensures within { result ≤ length bytes.now }
{
    for (length, byte) in bytes.iter().enumerate() {
        if *byte == b'"' || *byte == b'\n' {
            return length;
        }
    }
    bytes.len()
}

// A text in quotes, of which the first stands before it.
fn text_in_quotes(alloc: Global, text: &str, at: usize) -> Result<Option<Lexed>, AllocError>
    requires within { (0 < at) × (at ≤ length text.now) }
    requires quote { slice_index text.now (at - 1) ≡ 39 }
    ensures value { IfOk result (λ found. found ≡ quoted_text (drop at text.now)) }
    ensures within { IfOk result (λ found. IfSome found (λ l. (0 < l.length) × (at + l.length ≤ length text.now + 1))) }
{
    let Some(content) = content_at(alloc, text, at)? else {
        return Ok(None);
    };
    Ok(Some(Lexed {
        lexeme: Lexeme::Text(content.text),
        length: content.size + 1,
    }))
}
