ghost use Rattle.std.specs.Prelude.{◌≡◌, IfOk};
ghost use Rattle.rt_grammar.specs.Run.{Gives};
ghost use Rattle.rt_grammar.specs.Testing.{among, with_literal, operator, after_not, list, literal, digits, upper, after_literal, tested};

use crate::stop::Stop;
use crate::test::{Asked, Test, Tested};
use rt_lists::Items;
use rt_model::{ColumnAt, Condition, Literal, Predicate};
use rt_tokens::{Lexeme, Word, whole_or_zero};
use std::alloc::{AllocError, Global};

/// A test after one more token.
pub(crate) fn tested(alloc: Global, test: Test, lexeme: &Lexeme) -> Result<Tested, Stop>
    ensures { Gives (tested test lexeme.now) result }
{
    match test {
        Test::Operator(column) => operator(column, lexeme),
        Test::AfterNot(column) => after_not(column, lexeme),
        Test::List(column, none) => list(alloc, column, none, lexeme),
        Test::Literal(asked) => literal(alloc, asked, lexeme),
        Test::Digits(asked) => digits(asked, lexeme),
        Test::Upper(column, low) => upper(column, low, lexeme),
        Test::AfterLiteral(column, none, literals) => after_literal(column, none, literals, lexeme),
    }
}

fn operator(column: ColumnAt, lexeme: &Lexeme) -> Result<Tested, Stop>
    ensures { result ≡ operator column lexeme.now }
{
    match lexeme {
        Lexeme::Comparison(comparison) => {
            Ok(Tested::More(Test::Literal(Asked::Compare(column, *comparison))))
        }
        Lexeme::Word(Word::Between) => Ok(Tested::More(Test::Literal(Asked::Lower(column)))),
        Lexeme::Word(Word::In) => Ok(Tested::More(Test::List(column, false))),
        Lexeme::Word(Word::Not) => Ok(Tested::More(Test::AfterNot(column))),
        _ => Err(Stop::Stuck),
    }
}

fn after_not(column: ColumnAt, lexeme: &Lexeme) -> Result<Tested, Stop>
    ensures { result ≡ after_not column lexeme.now }
{
    match lexeme {
        Lexeme::Word(Word::In) => Ok(Tested::More(Test::List(column, true))),
        _ => Err(Stop::Stuck),
    }
}

fn list(alloc: Global, column: ColumnAt, none: bool, lexeme: &Lexeme) -> Result<Tested, Stop>
    ensures { result ≡ list column none lexeme.now }
{
    match lexeme {
        Lexeme::Word(Word::Open) => {
            let literals = Items::new(alloc);
            Ok(Tested::More(Test::Literal(Asked::Among(column, none, literals))))
        }
        _ => Err(Stop::Stuck),
    }
}

fn literal(alloc: Global, asked: Asked, lexeme: &Lexeme) -> Result<Tested, Stop>
    ensures { Gives (literal asked lexeme.now) result }
{
    match lexeme {
        Lexeme::Word(Word::Minus) => Ok(Tested::More(Test::Digits(asked))),
        Lexeme::Word(Word::True) => Ok(with_literal(asked, Literal::Bool(true))?),
        Lexeme::Word(Word::False) => Ok(with_literal(asked, Literal::Bool(false))?),
        Lexeme::Number(number) => {
            let number = whole_or_zero(false, *number);
            Ok(with_literal(asked, Literal::Int(number))?)
        }
        Lexeme::Text(text) => {
            let text = text.copy(alloc)?;
            Ok(with_literal(asked, Literal::Text(text))?)
        }
        _ => Err(Stop::Stuck),
    }
}

fn digits(asked: Asked, lexeme: &Lexeme) -> Result<Tested, Stop>
    ensures { Gives (digits asked lexeme.now) result }
{
    match lexeme {
        Lexeme::Number(number) => {
            let number = whole_or_zero(true, *number);
            Ok(with_literal(asked, Literal::Int(number))?)
        }
        _ => Err(Stop::Stuck),
    }
}

fn upper(column: ColumnAt, low: Literal, lexeme: &Lexeme) -> Result<Tested, Stop>
    ensures { result ≡ upper column low lexeme.now }
{
    match lexeme {
        Lexeme::Word(Word::And) => Ok(Tested::More(Test::Literal(Asked::Upper(column, low)))),
        _ => Err(Stop::Stuck),
    }
}

fn after_literal(
    column: ColumnAt,
    none: bool,
    literals: Items<Literal>,
    lexeme: &Lexeme,
) -> Result<Tested, Stop>
    ensures { result ≡ after_literal column none literals lexeme.now }
{
    match lexeme {
        Lexeme::Word(Word::Comma) => {
            Ok(Tested::More(Test::Literal(Asked::Among(column, none, literals))))
        }
        Lexeme::Word(Word::Close) => Ok(Tested::Whole(among(column, none, literals))),
        _ => Err(Stop::Stuck),
    }
}

// IN, or NOT IN.
fn among(column: ColumnAt, none: bool, literals: Items<Literal>) -> Predicate
    ensures { result ≡ among column none literals }
{
    if none {
        Predicate::of(Condition::NoneOf(column, literals))
    } else {
        Predicate::of(Condition::OneOf(column, literals))
    }
}

// A test once its literal is read.
fn with_literal(asked: Asked, literal: Literal) -> Result<Tested, AllocError>
    ensures { IfOk result (λ tested. tested ≡ with_literal asked literal) }
{
    match asked {
        Asked::Compare(column, comparison) => Ok(Tested::Whole(Predicate::of(Condition::Compare(
            column, comparison, literal,
        )))),
        Asked::Lower(column) => Ok(Tested::More(Test::Upper(column, literal))),
        Asked::Upper(column, low) => {
            Ok(Tested::Whole(Predicate::of(Condition::Between(column, low, literal))))
        }
        Asked::Among(column, none, mut literals) => {
            literals.push(literal)?;
            Ok(Tested::More(Test::AfterLiteral(column, none, literals)))
        }
    }
}
