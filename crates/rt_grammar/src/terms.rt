ghost use Rattle.std.specs.Prelude.{Ok};
ghost use Rattle.rt_schema.specs.Schema.{IsSchema};
ghost use Rattle.rt_grammar.specs.Run.{Gives};
ghost use Rattle.rt_grammar.specs.Steps.{term, after_test, after_predicate, after_term};

use crate::columns::column_at;
use crate::nested::{inside, outside, with_term};
use crate::nesting::Nesting;
use crate::parts::Parts;
use crate::state::{Stage, State};
use crate::steps::{after_filter, go};
use crate::stop::Stop;
use crate::test::{Test, Tested};
use rt_schema::Schema;
use rt_tokens::{Lexeme, Word};
use std::alloc::Global;

/// A term comes, behind so many NOTs.
pub(crate) fn term(
    alloc: Global,
    schema: &Schema,
    nesting: Nesting,
    nots: u32,
    lexeme: &Lexeme,
    parts: Parts,
) -> Result<State, Stop>
    requires { IsSchema schema.now }
    ensures { Gives (term schema.now nesting nots lexeme.now parts) result }
{
    match lexeme {
        Lexeme::Word(Word::Not) => {
            if nots >= nesting.level.room {
                return Err(Stop::Deep);
            }
            go(Stage::Term(nesting, nots + 1), parts)
        }
        Lexeme::Word(Word::Open) => {
            if nots >= nesting.level.room {
                return Err(Stop::Deep);
            }
            go(Stage::Term(inside(alloc, nesting, nots)?, 0), parts)
        }
        Lexeme::Name(name) => {
            let column = column_at(alloc, schema, name)?;
            go(Stage::Test(nesting, nots, Test::Operator(column)), parts)
        }
        _ => Err(Stop::Stuck),
    }
}

/// A test has been read, or more of it comes.
pub(crate) fn after_test(
    alloc: Global,
    nesting: Nesting,
    nots: u32,
    parts: Parts,
    read: Tested,
) -> Result<State, Stop>
    ensures { Gives (after_test nesting nots parts (Ok read)) result }
{
    match read {
        Tested::More(test) => go(Stage::Test(nesting, nots, test), parts),
        Tested::Whole(predicate) => {
            let (level, outer) = nesting.into_levels();
            let level = with_term(alloc, level, nots, predicate)?;
            go(Stage::AfterTerm(Nesting { level, outer }), parts)
        }
    }
}

/// AND, OR, a parenthesis or what follows the predicate comes.
pub(crate) fn after_term(
    alloc: Global,
    nesting: Nesting,
    lexeme: &Lexeme,
    parts: Parts,
) -> Result<State, Stop>
    ensures { Gives (after_term nesting lexeme.now parts) result }
{
    match lexeme {
        Lexeme::Word(Word::And) => go(Stage::Term(nesting, 0), parts),
        Lexeme::Word(Word::Or) => {
            let (level, outer) = nesting.into_levels();
            let level = level.with_condition(alloc)?;
            go(Stage::Term(Nesting { level, outer }, 0), parts)
        }
        _ => after_predicate(alloc, nesting, lexeme, parts),
    }
}

// Neither AND nor OR comes.
fn after_predicate(
    alloc: Global,
    nesting: Nesting,
    lexeme: &Lexeme,
    parts: Parts,
) -> Result<State, Stop>
    ensures { Gives (after_predicate nesting.level nesting.outer lexeme.now parts) result }
{
    let (level, mut outer) = nesting.into_levels();
    match (outer.pop(), lexeme) {
        (None, lexeme) => {
            let mut parts = parts;
            parts.filter = Some(level.into_predicate()?);
            after_filter(lexeme, parts)
        }
        (Some(enclosing), Lexeme::Word(Word::Close)) => {
            let nesting = outside(alloc, level, enclosing, outer)?;
            go(Stage::AfterTerm(nesting), parts)
        }
        _ => Err(Stop::Stuck),
    }
}
