ghost use Rattle.std.specs.Prelude.{◌≡◌};
ghost use Rattle.rt_sql.specs.Checks.{before_next, is_known, are_known, is_within, are_within};
ghost use Rattle.rt_sql.specs.declared.before.Before.TheVariants.{Other};

use rt_grammar::is_column;
use rt_schema::Schema;
use rt_tokens::{Lexeme, Token, Word, rows, whole};

/// What stands right before a token.
#[derive(Clone, Copy, Debug, PartialEq, Eq)]
enum Before {
    From,
    Limit,
    Minus,
    Other,
}

fn before_next(lexeme: &Lexeme) -> Before
    ensures { result ≡ before_next lexeme.now }
{
    match lexeme {
        Lexeme::Word(Word::From) => Before::From,
        Lexeme::Word(Word::Limit) => Before::Limit,
        Lexeme::Word(Word::Minus) => Before::Minus,
        _ => Before::Other,
    }
}

/// Whether each name is a column's, but for the one behind FROM.
pub(crate) fn are_known(schema: &Schema, tokens: &[Token]) -> bool
    ensures { result ≡ are_known schema.now Other tokens.now }
{
    let mut before = Before::Other;
    for token in tokens {
        if !is_known(schema, before, &token.lexeme) {
            return false;
        }
        before = before_next(&token.lexeme);
    }
    true
}

fn is_known(schema: &Schema, before: Before, lexeme: &Lexeme) -> bool
    ensures { result ≡ is_known schema.now before lexeme.now }
{
    match (before, lexeme) {
        (Before::From, Lexeme::Name(_name)) => true,
        (_, Lexeme::Name(name)) => is_column(schema, name.as_str()),
        _ => true,
    }
}

/// Whether the number behind LIMIT is at most 1,000,000, and each other one has 64 signed bits.
pub(crate) fn are_within(tokens: &[Token]) -> bool
    ensures { result ≡ are_within Other tokens.now }
{
    let mut before = Before::Other;
    for token in tokens {
        if !is_within(before, &token.lexeme) {
            return false;
        }
        before = before_next(&token.lexeme);
    }
    true
}

fn is_within(before: Before, lexeme: &Lexeme) -> bool
    ensures { result ≡ is_within before lexeme.now }
{
    let Lexeme::Number(number) = lexeme else {
        return true;
    };
    match before {
        Before::Limit => rows(*number).is_some(),
        Before::Minus => whole(true, *number).is_some(),
        _ => whole(false, *number).is_some(),
    }
}
