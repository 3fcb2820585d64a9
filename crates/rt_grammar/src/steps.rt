ghost use Rattle.std.specs.Prelude.{◌≡◌};
ghost use Rattle.rt_schema.specs.Schema.{IsSchema};
ghost use Rattle.rt_grammar.specs.Run.{Gives};
ghost use Rattle.rt_grammar.specs.Steps.{go, select, after_item, table, after_limit, after_order, after_groups, after_filter, after_table, group_by, group, after_group, order_by, after_direction, after_key, limit, step};

use crate::columns::column_at;
use crate::items::{called, wanted, with_key};
use crate::nested::start;
use crate::parts::{GroupAt, ItemAt, Parts};
use crate::state::{Side, Stage, State};
use crate::stop::Stop;
use crate::terms::{after_term, after_test, term};
use crate::testing::tested;
use rt_schema::Schema;
use rt_tokens::{Lexeme, Token, Word, rows_or_none};
use std::alloc::Global;

/// A query after one more token.
pub(crate) fn step(
    alloc: Global,
    schema: &Schema,
    state: State,
    token: &Token,
) -> Result<State, Stop>
    requires { IsSchema schema.now }
    ensures { Gives (step schema.now state token.now) result }
{
    let State { stage, parts } = state;
    let byte = token.byte;
    let lexeme = &token.lexeme;
    match stage {
        Stage::Select => select(lexeme, parts),
        Stage::Wanted(side) => wanted(alloc, schema, side, byte, lexeme, parts),
        Stage::Call(side, call) => called(alloc, schema, side, call, lexeme, parts),
        Stage::AfterItem => after_item(lexeme, parts),
        Stage::Table => table(alloc, lexeme, parts),
        Stage::AfterTable => after_table(alloc, lexeme, parts),
        Stage::Term(nesting, nots) => term(alloc, schema, nesting, nots, lexeme, parts),
        Stage::Test(nesting, nots, test) => {
            let read = tested(alloc, test, lexeme)?;
            after_test(alloc, nesting, nots, parts, read)
        }
        Stage::AfterTerm(nesting) => after_term(alloc, nesting, lexeme, parts),
        Stage::GroupBy => group_by(lexeme, parts),
        Stage::Group => group(alloc, schema, byte, lexeme, parts),
        Stage::AfterGroup => after_group(lexeme, parts),
        Stage::OrderBy => order_by(lexeme, parts),
        Stage::AfterKey(found) => after_key(found, lexeme, parts),
        Stage::AfterDirection => after_direction(lexeme, parts),
        Stage::Limit => limit(lexeme, parts),
        Stage::AfterLimit => after_limit(lexeme, parts),
        Stage::End => Err(Stop::Stuck),
    }
}

/// A query whose parts are these goes on so.
pub(crate) fn go(stage: Stage, parts: Parts) -> Result<State, Stop>
    ensures { result ≡ go stage parts }
{
    Ok(State { stage, parts })
}

fn select(lexeme: &Lexeme, parts: Parts) -> Result<State, Stop>
    ensures { result ≡ select lexeme.now parts }
{
    match lexeme {
        Lexeme::Word(Word::Select) => go(Stage::Wanted(Side::Select), parts),
        _ => Err(Stop::Stuck),
    }
}

fn after_item(lexeme: &Lexeme, parts: Parts) -> Result<State, Stop>
    ensures { result ≡ after_item lexeme.now parts }
{
    match lexeme {
        Lexeme::Word(Word::Comma) => go(Stage::Wanted(Side::Select), parts),
        Lexeme::Word(Word::From) => go(Stage::Table, parts),
        _ => Err(Stop::Stuck),
    }
}

fn table(alloc: Global, lexeme: &Lexeme, parts: Parts) -> Result<State, Stop>
    ensures { Gives (table lexeme.now parts) result }
{
    match lexeme {
        Lexeme::Name(name) => {
            let mut parts = parts;
            parts.table = name.copy(alloc)?;
            go(Stage::AfterTable, parts)
        }
        _ => Err(Stop::Stuck),
    }
}

fn after_table(alloc: Global, lexeme: &Lexeme, parts: Parts) -> Result<State, Stop>
    ensures { result ≡ after_table lexeme.now parts }
{
    match lexeme {
        Lexeme::Word(Word::Where) => go(Stage::Term(start(alloc), 0), parts),
        _ => after_filter(lexeme, parts),
    }
}

/// GROUP BY and what follows it may come.
pub(crate) fn after_filter(lexeme: &Lexeme, parts: Parts) -> Result<State, Stop>
    ensures { result ≡ after_filter lexeme.now parts }
{
    match lexeme {
        Lexeme::Word(Word::Group) => go(Stage::GroupBy, parts),
        _ => after_groups(lexeme, parts),
    }
}

// ORDER BY and what follows it may come.
fn after_groups(lexeme: &Lexeme, parts: Parts) -> Result<State, Stop>
    ensures { result ≡ after_groups lexeme.now parts }
{
    match lexeme {
        Lexeme::Word(Word::Order) => go(Stage::OrderBy, parts),
        _ => after_order(lexeme, parts),
    }
}

// LIMIT and what follows it may come.
fn after_order(lexeme: &Lexeme, parts: Parts) -> Result<State, Stop>
    ensures { result ≡ after_order lexeme.now parts }
{
    match lexeme {
        Lexeme::Word(Word::Limit) => go(Stage::Limit, parts),
        _ => after_limit(lexeme, parts),
    }
}

fn after_limit(lexeme: &Lexeme, parts: Parts) -> Result<State, Stop>
    ensures { result ≡ after_limit lexeme.now parts }
{
    match lexeme {
        Lexeme::Word(Word::Semicolon) => go(Stage::End, parts),
        _ => Err(Stop::Stuck),
    }
}

fn group_by(lexeme: &Lexeme, parts: Parts) -> Result<State, Stop>
    ensures { result ≡ group_by lexeme.now parts }
{
    match lexeme {
        Lexeme::Word(Word::By) => go(Stage::Group, parts),
        _ => Err(Stop::Stuck),
    }
}

fn group(
    alloc: Global,
    schema: &Schema,
    byte: u64,
    lexeme: &Lexeme,
    parts: Parts,
) -> Result<State, Stop>
    requires { IsSchema schema.now }
    ensures { Gives (group schema.now byte lexeme.now parts) result }
{
    match lexeme {
        Lexeme::Name(name) => {
            let mut parts = parts;
            let column = column_at(alloc, schema, name)?;
            parts.groups.push(GroupAt { byte, column })?;
            go(Stage::AfterGroup, parts)
        }
        _ => Err(Stop::Stuck),
    }
}

fn after_group(lexeme: &Lexeme, parts: Parts) -> Result<State, Stop>
    ensures { result ≡ after_group lexeme.now parts }
{
    match lexeme {
        Lexeme::Word(Word::Comma) => go(Stage::Group, parts),
        _ => after_groups(lexeme, parts),
    }
}

fn order_by(lexeme: &Lexeme, parts: Parts) -> Result<State, Stop>
    ensures { result ≡ order_by lexeme.now parts }
{
    match lexeme {
        Lexeme::Word(Word::By) => go(Stage::Wanted(Side::Order), parts),
        _ => Err(Stop::Stuck),
    }
}

fn after_key(found: ItemAt, lexeme: &Lexeme, parts: Parts) -> Result<State, Stop>
    ensures { Gives (after_key found lexeme.now parts) result }
{
    match lexeme {
        Lexeme::Word(Word::Ascending) => go(Stage::AfterDirection, with_key(found, false, parts)?),
        Lexeme::Word(Word::Descending) => go(Stage::AfterDirection, with_key(found, true, parts)?),
        _ => after_direction(lexeme, with_key(found, false, parts)?),
    }
}

fn after_direction(lexeme: &Lexeme, parts: Parts) -> Result<State, Stop>
    ensures { result ≡ after_direction lexeme.now parts }
{
    match lexeme {
        Lexeme::Word(Word::Comma) => go(Stage::Wanted(Side::Order), parts),
        _ => after_order(lexeme, parts),
    }
}

fn limit(lexeme: &Lexeme, parts: Parts) -> Result<State, Stop>
    ensures { result ≡ limit lexeme.now parts }
{
    match lexeme {
        Lexeme::Number(number) => {
            let mut parts = parts;
            parts.limit = rows_or_none(*number);
            go(Stage::AfterLimit, parts)
        }
        _ => Err(Stop::Stuck),
    }
}
