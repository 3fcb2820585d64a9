ghost use Rattle.std.specs.Prelude.{◌≡◌, ◌<◌, [], false, IfOk, IfSome, OnOk, length, string_bytes};
ghost use Rattle.rt_base.specs.declared.limits.TheConstants.{MOST_EVENTS};
ghost use Rattle.rt_desk.specs.Hybrid.{HybridBy, HybridQuery, HybridTold, PushLine, Pushed, PushesRows};
ghost use Rattle.rt_desk.specs.Telling.{DoesChange};
ghost use Rattle.rt_macros.specs.Doing.{DoesText};
ghost use Rattle.rt_model.specs.Checked.{IsQuery};
ghost use Rattle.rt_script.specs.QueryTexts.{FitsText};

use crate::passing::{pass_nooffline, pass_noquery};
use rt_base::Which;
use rt_base::limits::MOST_EVENTS;
use rt_hybrid::{Hybrid, HybridRefused};
use rt_macros::pass;
use rt_model::Query;
use rt_report::{write_hybrid, write_nooffline, write_offline};
use rt_script::QueryText;
use rt_views::hybrid;
use rt_world::{Refusal, World};
use std::alloc::{AllocError, Global};

/// `offline TEXT`: pushes the rows of a text into a table. Each push counts as an event, so there are never too many of them.
#[tactic(auto, using(rt_macros::proofs::Doing::does_then, rt_macros::proofs::Doing::does_refused, rt_macros::proofs::Doing::does_told))]
pub(crate) fn push_line(
    alloc: Global,
    world: &mut World,
    table: &mut Hybrid,
    rows: &str,
    text: &mut String,
) -> Result<(), Refusal>
    requires unspent { world.old.spent ≡ false }
    requires empty { string_bytes text.old ≡ [] }
    ensures told { DoesChange (PushLine rows.now table.old) world.old.state world.new (string_bytes text.new) table.new result }
    ensures schema { OnOk result (table.new.schema ≡ table.old.schema) }
{
    if u64::from(table.pushes()) >= MOST_EVENTS {
        return Err(Refusal::Limit(Which::Events));
    }
    pass(world)?;
    push_rows(alloc, table, rows, text)?;
    Ok(())
}

// Pushes the rows of a text, and makes the text that is reported of it.
fn push_rows(
    alloc: Global,
    table: &mut Hybrid,
    rows: &str,
    text: &mut String,
) -> Result<(), AllocError>
    requires few { length table.old.files < MOST_EVENTS }
    requires empty { string_bytes text.old ≡ [] }
    ensures { OnOk result (Pushed rows.now table.old table.new (string_bytes text.new)) }
{
    match push(alloc, table, rows)? {
        Some(count) => write_offline(text, count),
        None => write_nooffline(text, 2),
    }
}

// Pushes the rows of a text, and gives how many they are; none where it has no rows.
fn push(alloc: Global, table: &mut Hybrid, text: &str) -> Result<Option<u32>, AllocError>
    requires { length table.old.files < MOST_EVENTS }
    ensures { IfOk result (PushesRows text.now table.old table.new) }
{
    match table.push(alloc, text) {
        Ok(count) => Ok(Some(count)),
        Err(HybridRefused::NotRows) => Ok(None),
        Err(HybridRefused::NoTime) => Ok(None),
        Err(HybridRefused::Memory) => Err(AllocError),
    }
}

/// `hybrid TEXT`: asks a query of the offline rows and of the stream's.
pub(crate) fn play_hybrid(
    alloc: Global,
    world: &mut World,
    table: &Option<Hybrid>,
    asked: QueryText,
    text: &mut String,
) -> Result<(), Refusal>
    requires unspent { world.old.spent ≡ false }
    requires table { IfSome table.now (λ t. t.schema ≡ world.old.state.setup.schema) }
    requires fits { FitsText world.old.state.setup.schema asked }
    requires empty { string_bytes text.old ≡ [] }
    ensures { DoesText (HybridTold table.now asked) world.old.state world.new (string_bytes text.new) result }
{
    match table {
        Some(table) => hybrid_by(alloc, world, table, asked, text),
        None => pass_nooffline(world, text),
    }
}

fn hybrid_by(
    alloc: Global,
    world: &mut World,
    table: &Hybrid,
    asked: QueryText,
    text: &mut String,
) -> Result<(), Refusal>
    requires unspent { world.old.spent ≡ false }
    requires table { table.now.schema ≡ world.old.state.setup.schema }
    requires fits { FitsText world.old.state.setup.schema asked }
    requires empty { string_bytes text.old ≡ [] }
    ensures { DoesText (HybridBy table.now asked) world.old.state world.new (string_bytes text.new) result }
{
    match asked {
        QueryText::Query(query) => hybrid_query(alloc, world, table, &query, text),
        QueryText::Refused(number) => pass_noquery(world, number, text),
    }
}

#[tactic(auto, using(rt_macros::proofs::Doing::does_then, rt_macros::proofs::Doing::does_refused, rt_macros::proofs::Doing::does_told, crate::proofs::PassedOver::passed_schema))]
fn hybrid_query(
    alloc: Global,
    world: &mut World,
    table: &Hybrid,
    query: &Query,
    text: &mut String,
) -> Result<(), Refusal>
    requires unspent { world.old.spent ≡ false }
    requires table { table.now.schema ≡ world.old.state.setup.schema }
    requires fits { IsQuery world.old.state.setup.schema query.now }
    requires empty { string_bytes text.old ≡ [] }
    ensures { DoesText (HybridQuery table.now query.now) world.old.state world.new (string_bytes text.new) result }
{
    pass(world)?;
    let answer = hybrid(alloc, world, table, query)?;
    write_hybrid(alloc, text, table.boundary(), &answer)?;
    Ok(())
}
