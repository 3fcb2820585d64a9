ghost use Rattle.std.specs.Prelude.{◌≡◌, ◌<◌, IfOk};
ghost use Rattle.rt_grammar.specs.Nested.{all_of, any_of, under, new_level, with_term, start, inside, outside};

use crate::nesting::{Enclosing, Level, Nesting};
use crate::stack::Stack;
use rt_lists::Items;
use rt_model::{Condition, Predicate};
use std::alloc::{AllocError, Global};

/// How many parentheses round a predicate and NOTs may be open at one place.
const DEEPEST: u32 = 64;

/// Where a predicate begins.
pub(crate) fn start(alloc: Global) -> Nesting
    ensures { result ≡ start }
{
    Nesting {
        level: new_level(alloc, DEEPEST),
        outer: Stack::new(alloc),
    }
}

fn new_level(alloc: Global, room: u32) -> Level
    ensures { result ≡ new_level room }
{
    Level {
        room,
        conditions: Items::new(alloc),
        terms: Items::new(alloc),
    }
}

/// A parenthesis opens behind so many NOTs.
pub(crate) fn inside(alloc: Global, nesting: Nesting, nots: u32) -> Result<Nesting, AllocError>
    requires { nots < nesting.level.room }
    ensures { IfOk result (λ deeper. deeper ≡ inside nesting nots) }
{
    let (level, mut outer) = nesting.into_levels();
    let inner = new_level(alloc, level.room - nots - 1);
    outer.push(Enclosing { level, nots })?;
    Ok(Nesting {
        level: inner,
        outer,
    })
}

/// A parenthesis closes; what it encloses is a term.
pub(crate) fn outside(
    alloc: Global,
    level: Level,
    enclosing: Enclosing,
    outer: Stack<Enclosing>,
) -> Result<Nesting, AllocError>
    ensures { IfOk result (λ nesting. nesting ≡ outside level enclosing outer) }
{
    let predicate = level.into_predicate()?;
    let level = with_term(alloc, enclosing.level, enclosing.nots, predicate)?;
    Ok(Nesting { level, outer })
}

/// A term ends, before which so many NOTs stand.
pub(crate) fn with_term(
    alloc: Global,
    level: Level,
    nots: u32,
    term: Predicate,
) -> Result<Level, AllocError>
    ensures { IfOk result (λ later. later ≡ with_term level nots term) }
{
    let mut level = level;
    level.terms.push(under(alloc, nots, term)?)?;
    Ok(level)
}

#[tactic(auto, using(crate::proofs::Nots::under_step))]
fn under(alloc: Global, nots: u32, term: Predicate) -> Result<Predicate, AllocError>
    ensures { IfOk result (λ predicate. predicate ≡ under nots term) }
{
    let mut predicate = term;
    for _not in 0..nots {
        predicate = Predicate::of(Condition::Not(Box::new(alloc, predicate)?));
    }
    Ok(predicate)
}

/// AND of terms; one term is itself.
pub(crate) fn all_of(terms: Items<Predicate>) -> Predicate
    ensures { result ≡ all_of terms }
{
    let mut terms = terms.into_vec();
    if terms.len() == 1 {
        return terms.remove(0);
    }
    Predicate::of(Condition::And(terms))
}

/// OR of conditions; one is itself.
pub(crate) fn any_of(conditions: Items<Predicate>) -> Predicate
    ensures { result ≡ any_of conditions }
{
    let mut conditions = conditions.into_vec();
    if conditions.len() == 1 {
        return conditions.remove(0);
    }
    Predicate::of(Condition::Or(conditions))
}
