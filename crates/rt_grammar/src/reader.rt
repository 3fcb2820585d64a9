ghost use Rattle.std.specs.Prelude.{◌≡◌, IfOk};
ghost use Rattle.rt_schema.specs.Schema.{IsSchema};
ghost use Rattle.rt_grammar.specs.Run.{Answers, nothing, refused, predicate_ends, ended, run};

use crate::items::with_key;
use crate::nesting::Nesting;
use crate::parts::Parts;
use crate::sql_refused::SqlRefused;
use crate::state::{Stage, State};
use crate::steps::step;
use crate::stop::Stop;
use rt_lists::{Items, Text};
use rt_schema::Schema;
use rt_tokens::Token;
use std::alloc::{AllocError, Global};

/// The parts of a query of these tokens, in a text of so many bytes.
pub fn read(
    alloc: Global,
    schema: &Schema,
    tokens: &[Token],
    size: u64,
) -> Result<Parts, SqlRefused>
    requires { IsSchema schema.now }
    ensures { Answers (run schema.now size nothing tokens.now) result }
{
    let mut state = nothing(alloc);
    for token in tokens {
        match step(alloc, schema, state, token) {
            Ok(next) => state = next,
            Err(stop) => return Err(refused(stop, token.byte)),
        }
    }
    match ended(state.stage, state.parts)? {
        Some(parts) => Ok(parts),
        None => Err(SqlRefused::Syntax { byte: size }),
    }
}

fn nothing(alloc: Global) -> State
    ensures { result ≡ nothing }
{
    State {
        stage: Stage::Select,
        parts: Parts {
            items: Items::new(alloc),
            table: Text::new(alloc),
            filter: None,
            groups: Items::new(alloc),
            order: Items::new(alloc),
            limit: 10,
        },
    }
}

fn refused(stop: Stop, byte: u64) -> SqlRefused
    ensures { result ≡ refused byte stop }
{
    match stop {
        Stop::Stuck => SqlRefused::Syntax { byte },
        Stop::Deep => SqlRefused::Limit,
        Stop::Memory => SqlRefused::Memory,
    }
}

// The parts of the query, where it may end here.
fn ended(stage: Stage, parts: Parts) -> Result<Option<Parts>, AllocError>
    ensures { IfOk result (λ whole. whole ≡ ended stage parts) }
{
    match stage {
        Stage::AfterTable
        | Stage::AfterGroup
        | Stage::AfterDirection
        | Stage::AfterLimit
        | Stage::End => Ok(Some(parts)),
        Stage::AfterTerm(nesting) => predicate_ends(nesting, parts),
        Stage::AfterKey(found) => Ok(Some(with_key(found, false, parts)?)),
        _ => Ok(None),
    }
}

fn predicate_ends(nesting: Nesting, parts: Parts) -> Result<Option<Parts>, AllocError>
    ensures { IfOk result (λ whole. whole ≡ predicate_ends nesting parts nesting.outer) }
{
    let (level, mut outer) = nesting.into_levels();
    if outer.pop().is_some() {
        return Ok(None);
    }
    let mut parts = parts;
    parts.filter = Some(level.into_predicate()?);
    Ok(Some(parts))
}
