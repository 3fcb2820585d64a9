ghost use Rattle.std.specs.Prelude.{◌≡◌, IfOk};
ghost use Rattle.rt_schema.specs.Schema.{IsSchema};
ghost use Rattle.rt_grammar.specs.Run.{Gives};
ghost use Rattle.rt_grammar.specs.Steps.{with_item, wanted, argument, called, with_key};

use crate::call::{Call, Function};
use crate::columns::column_at;
use crate::parts::{ItemAt, KeyAt, Parts};
use crate::state::{Side, Stage, State};
use crate::steps::go;
use crate::stop::Stop;
use rt_model::{Aggregate, Item, OrderKey};
use rt_schema::Schema;
use rt_tokens::{Lexeme, Word};
use std::alloc::{AllocError, Global};

/// An item or a key comes.
pub(crate) fn wanted(
    alloc: Global,
    schema: &Schema,
    side: Side,
    byte: u64,
    lexeme: &Lexeme,
    parts: Parts,
) -> Result<State, Stop>
    requires { IsSchema schema.now }
    ensures { Gives (wanted schema.now side byte lexeme.now parts) result }
{
    match lexeme {
        Lexeme::Name(name) => {
            let column = column_at(alloc, schema, name)?;
            let item = Item::Column(column);
            Ok(with_item(side, ItemAt { byte, item }, parts)?)
        }
        Lexeme::Word(Word::Count) => go(
            Stage::Call(side, Call::Open(byte, Function::Count)),
            parts,
        ),
        Lexeme::Word(Word::Sum) => go(Stage::Call(side, Call::Open(byte, Function::Sum)), parts),
        Lexeme::Word(Word::Min) => go(Stage::Call(side, Call::Open(byte, Function::Min)), parts),
        Lexeme::Word(Word::Max) => go(Stage::Call(side, Call::Open(byte, Function::Max)), parts),
        _ => Err(Stop::Stuck),
    }
}

/// The call of an aggregate goes on.
pub(crate) fn called(
    alloc: Global,
    schema: &Schema,
    side: Side,
    call: Call,
    lexeme: &Lexeme,
    parts: Parts,
) -> Result<State, Stop>
    requires { IsSchema schema.now }
    ensures { Gives (called schema.now side call lexeme.now parts) result }
{
    match (call, lexeme) {
        (Call::Open(byte, function), Lexeme::Word(Word::Open)) => {
            go(Stage::Call(side, Call::Argument(byte, function)), parts)
        }
        (Call::Argument(byte, function), lexeme) => {
            let found = argument(alloc, schema, byte, function, lexeme)?;
            go(Stage::Call(side, Call::Close(found)), parts)
        }
        (Call::Close(found), Lexeme::Word(Word::Close)) => Ok(with_item(side, found, parts)?),
        _ => Err(Stop::Stuck),
    }
}

// The whole of an aggregate but for its last parenthesis.
fn argument(
    alloc: Global,
    schema: &Schema,
    byte: u64,
    function: Function,
    lexeme: &Lexeme,
) -> Result<ItemAt, Stop>
    requires { IsSchema schema.now }
    ensures { Gives (argument schema.now byte function lexeme.now) result }
{
    let aggregate = match (function, lexeme) {
        (Function::Count, Lexeme::Word(Word::Star)) => Aggregate::Count,
        (Function::Sum, Lexeme::Name(name)) => Aggregate::Sum(column_at(alloc, schema, name)?),
        (Function::Min, Lexeme::Name(name)) => Aggregate::Min(column_at(alloc, schema, name)?),
        (Function::Max, Lexeme::Name(name)) => Aggregate::Max(column_at(alloc, schema, name)?),
        _ => return Err(Stop::Stuck),
    };
    Ok(ItemAt {
        byte,
        item: Item::Aggregate(aggregate),
    })
}

// An item or a key has been read.
fn with_item(side: Side, found: ItemAt, parts: Parts) -> Result<State, AllocError>
    ensures { IfOk result (λ state. state ≡ with_item side found parts) }
{
    match side {
        Side::Select => {
            let mut parts = parts;
            parts.items.push(found)?;
            Ok(State {
                stage: Stage::AfterItem,
                parts,
            })
        }
        Side::Order => Ok(State {
            stage: Stage::AfterKey(found),
            parts,
        }),
    }
}

/// A key and its direction have been read.
pub(crate) fn with_key(found: ItemAt, descending: bool, parts: Parts) -> Result<Parts, AllocError>
    ensures { IfOk result (λ later. later ≡ with_key found descending parts) }
{
    let ItemAt { byte, item } = found;
    let key = OrderKey { item, descending };
    let mut parts = parts;
    parts.order.push(KeyAt { byte, key })?;
    Ok(parts)
}
