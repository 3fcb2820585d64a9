ghost use Rattle.std.specs.Prelude.{◌≡◌, IfOk};
ghost use Rattle.rt_tokens.specs.Tokens.{word_named, other_word_named, lexeme_of};

use crate::lexeme::{Lexeme, Word};
use rt_lists::Text;
use std::alloc::{AllocError, Global};

/// A word of the grammar, in any case, or else a plain name.
pub(crate) fn lexeme_of(alloc: Global, name: &str) -> Result<Lexeme, AllocError>
    ensures { IfOk result (λ lexeme. lexeme ≡ lexeme_of name.now) }
{
    let lower = name.to_ascii_lowercase(alloc)?;
    match word_named(lower.as_str()) {
        Some(word) => Ok(Lexeme::Word(word)),
        None => Ok(Lexeme::Name(Text::copied_from(alloc, name)?)),
    }
}

// The word that lower-case letters are.
fn word_named(name: &str) -> Option<Word>
    ensures { result ≡ word_named name.now }
{
    match name {
        "select" => Some(Word::Select),
        "from" => Some(Word::From),
        "where" => Some(Word::Where),
        "group" => Some(Word::Group),
        "by" => Some(Word::By),
        "order" => Some(Word::Order),
        "limit" => Some(Word::Limit),
        "count" => Some(Word::Count),
        "sum" => Some(Word::Sum),
        "min" => Some(Word::Min),
        "max" => Some(Word::Max),
        _ => other_word_named(name),
    }
}

fn other_word_named(name: &str) -> Option<Word>
    ensures { result ≡ other_word_named name.now }
{
    match name {
        "asc" => Some(Word::Ascending),
        "desc" => Some(Word::Descending),
        "or" => Some(Word::Or),
        "and" => Some(Word::And),
        "not" => Some(Word::Not),
        "between" => Some(Word::Between),
        "in" => Some(Word::In),
        "true" => Some(Word::True),
        "false" => Some(Word::False),
        _ => None,
    }
}
