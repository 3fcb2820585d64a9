ghost use Rattle.std.specs.Prelude.{◌≡◌, [], false, string_bytes};
ghost use Rattle.rt_desk.specs.Saying.{MacroTold};
ghost use Rattle.rt_model.specs.Checked.{IsQuery};
ghost use Rattle.rt_macros.specs.Doing.{DoesText};
ghost use Rattle.rt_macros.specs.Exchanging.{ExchangeTold};
ghost use Rattle.rt_macros.specs.Filling.{FillTold};
ghost use Rattle.rt_macros.specs.Querying.{QueryTold};
ghost use Rattle.rt_macros.specs.Settling.{SettleTold};
ghost use Rattle.rt_script.specs.Line.{FitsMacro};

use rt_base::{ControllerId, Instance, Partition, Sequence};
use rt_macros::{exchange, fill, query, settle};
use rt_model::Query;
use rt_pause::Pause;
use rt_report::{write_answer, write_exchanged, write_filled, write_settled};
use rt_script::Macro;
use rt_world::{Refusal, World};
use std::alloc::Global;

/// Has the events of a macro happen, and makes the text that is reported of it.
pub(crate) fn play_macro(
    alloc: Global,
    world: &mut World,
    pause: &Pause,
    said: Macro,
    text: &mut String,
) -> Result<(), Refusal>
    requires unspent { world.old.spent ≡ false }
    requires fits { FitsMacro world.old.state.setup.schema said }
    requires empty { string_bytes text.old ≡ [] }
    ensures { DoesText (MacroTold pause.now said) world.old.state world.new (string_bytes text.new) result }
{
    match said {
        Macro::Fill { partition, count } => play_fill(alloc, world, partition, count, text),
        Macro::Query { query } => play_query(alloc, world, query, text),
        Macro::Exchange {
            instance,
            partition,
            sequence,
            controller,
        } => play_exchange(
            alloc, world, instance, partition, sequence, controller, text,
        ),
        Macro::Settle { rounds } => play_settle(alloc, world, pause, rounds, text),
    }
}

#[tactic(auto, using(rt_macros::proofs::Doing::does_then, rt_macros::proofs::Doing::does_refused, rt_macros::proofs::Doing::does_told))]
fn play_fill(
    alloc: Global,
    world: &mut World,
    partition: Partition,
    count: u64,
    text: &mut String,
) -> Result<(), Refusal>
    requires unspent { world.old.spent ≡ false }
    requires empty { string_bytes text.old ≡ [] }
    ensures { DoesText (FillTold partition count) world.old.state world.new (string_bytes text.new) result }
{
    let length = fill(alloc, world, partition, count)?;
    write_filled(text, partition, length)?;
    Ok(())
}

/// `query TEXT`: asks a query, has each server answer for its pieces, and makes the text that is reported of the answer.
#[tactic(auto, using(rt_macros::proofs::Doing::does_then, rt_macros::proofs::Doing::does_refused, rt_macros::proofs::Doing::does_told))]
pub fn play_query(
    alloc: Global,
    world: &mut World,
    asked: Query,
    text: &mut String,
) -> Result<(), Refusal>
    requires unspent { world.old.spent ≡ false }
    requires fits { IsQuery world.old.state.setup.schema asked }
    requires empty { string_bytes text.old ≡ [] }
    ensures { DoesText (QueryTold asked) world.old.state world.new (string_bytes text.new) result }
{
    let answer = query(alloc, world, asked)?;
    write_answer(alloc, text, &answer)?;
    Ok(())
}

#[tactic(auto, using(rt_macros::proofs::Doing::does_then, rt_macros::proofs::Doing::does_refused, rt_macros::proofs::Doing::does_told))]
fn play_exchange(
    alloc: Global,
    world: &mut World,
    instance: Instance,
    partition: Partition,
    sequence: Sequence,
    controller: ControllerId,
    text: &mut String,
) -> Result<(), Refusal>
    requires unspent { world.old.spent ≡ false }
    requires empty { string_bytes text.old ≡ [] }
    ensures { DoesText (ExchangeTold instance partition sequence controller) world.old.state world.new (string_bytes text.new) result }
{
    let done = exchange(alloc, world, instance, partition, sequence, controller)?;
    write_exchanged(
        alloc,
        text,
        done.request,
        done.reply,
        &done.status,
        done.state,
    )?;
    Ok(())
}

#[tactic(auto, using(rt_macros::proofs::Doing::does_then, rt_macros::proofs::Doing::does_refused, rt_macros::proofs::Doing::does_told))]
fn play_settle(
    alloc: Global,
    world: &mut World,
    pause: &Pause,
    rounds: u64,
    text: &mut String,
) -> Result<(), Refusal>
    requires unspent { world.old.spent ≡ false }
    requires empty { string_bytes text.old ≡ [] }
    ensures { DoesText (SettleTold pause.now rounds) world.old.state world.new (string_bytes text.new) result }
{
    let quiet = settle(alloc, world, pause, rounds)?;
    write_settled(text, quiet)?;
    Ok(())
}
