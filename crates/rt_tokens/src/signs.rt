ghost use Rattle.std.specs.Prelude.{◌≡◌, ◌<◌, ◌≤◌, IfSome};
ghost use Rattle.rt_tokens.specs.Tokens.{sign, comparison, not_equal, less, greater};

use crate::lexeme::{Lexeme, Word};
use crate::lexer::Lexed;
use rt_model::Comparison;

/// The sign that a byte is, or that it and the next byte are.
pub(crate) fn sign(byte: u8, next: u8) -> Option<Lexed>
    ensures value { result ≡ sign byte next }
    // A sign of two bytes has a second one.
    ensures within { IfSome result (λ l. (0 < l.length) × (l.length ≤ 2) × (l.length ≡ 2 → 0 < next)) }
{
    match byte {
        b',' => Some(mark(Word::Comma)),
        b'(' => Some(mark(Word::Open)),
        b')' => Some(mark(Word::Close)),
        b'*' => Some(mark(Word::Star)),
        b'-' => Some(mark(Word::Minus)),
        b';' => Some(mark(Word::Semicolon)),
        _ => comparison(byte, next),
    }
}

fn mark(word: Word) -> Lexed
    ensures { result ≡ record { lexeme = Lexeme.Word word; length = 1 } }
{
    Lexed {
        lexeme: Lexeme::Word(word),
        length: 1,
    }
}

fn comparison(byte: u8, next: u8) -> Option<Lexed>
    ensures value { result ≡ comparison byte next }
    ensures within { IfSome result (λ l. (0 < l.length) × (l.length ≤ 2) × (l.length ≡ 2 → 0 < next)) }
{
    match byte {
        b'=' => Some(compared(Comparison::Equal, 1)),
        b'<' => Some(less(next)),
        b'>' => Some(greater(next)),
        b'!' => not_equal(next),
        _ => None,
    }
}

fn compared(comparison: Comparison, length: usize) -> Lexed
    ensures { result ≡ record { lexeme = Lexeme.Comparison comparison; length = length } }
{
    Lexed {
        lexeme: Lexeme::Comparison(comparison),
        length,
    }
}

fn not_equal(next: u8) -> Option<Lexed>
    ensures value { result ≡ not_equal next }
    ensures within { IfSome result (λ l. (0 < l.length) × (l.length ≤ 2) × (l.length ≡ 2 → 0 < next)) }
{
    if next == b'=' {
        Some(compared(Comparison::NotEqual, 2))
    } else {
        None
    }
}

fn less(next: u8) -> Lexed
    ensures value { result ≡ less next }
    ensures within { (0 < result.length) × (result.length ≤ 2) × (result.length ≡ 2 → 0 < next) }
{
    match next {
        b'>' => compared(Comparison::NotEqual, 2),
        b'=' => compared(Comparison::AtMost, 2),
        _ => compared(Comparison::Less, 1),
    }
}

fn greater(next: u8) -> Lexed
    ensures value { result ≡ greater next }
    ensures within { (0 < result.length) × (result.length ≤ 2) × (result.length ≡ 2 → 0 < next) }
{
    if next == b'=' {
        compared(Comparison::AtLeast, 2)
    } else {
        compared(Comparison::Greater, 1)
    }
}
