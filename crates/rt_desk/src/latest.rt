ghost use Rattle.std.specs.Prelude.{◌≡◌, [], false, IfSome, string_bytes};
ghost use Rattle.rt_desk.specs.Latest.{LatestBy, LatestQuery, LatestTold};
ghost use Rattle.rt_macros.specs.Doing.{DoesText};
ghost use Rattle.rt_model.specs.Checked.{IsQuery};
ghost use Rattle.rt_script.specs.QueryTexts.{FitsText};
ghost use Rattle.rt_upconf.specs.Upsert.{IsUpsertConfig};

use crate::passing::pass_noquery;
use rt_macros::pass;
use rt_model::Query;
use rt_report::write_latest;
use rt_script::QueryText;
use rt_upconf::UpsertConfig;
use rt_views::latest;
use rt_world::{Refusal, World};
use std::alloc::Global;

/// `latest TEXT`: asks a query of the latest row of each key, where the table has upsert settings.
pub(crate) fn play_latest(
    alloc: Global,
    world: &mut World,
    upsert: &Option<UpsertConfig>,
    asked: QueryText,
    text: &mut String,
) -> Result<(), Refusal>
    requires unspent { world.old.spent ≡ false }
    requires config { IfSome upsert.now (IsUpsertConfig world.old.state.setup.schema) }
    requires fits { FitsText world.old.state.setup.schema asked }
    requires empty { string_bytes text.old ≡ [] }
    ensures { DoesText (LatestTold upsert.now asked) world.old.state world.new (string_bytes text.new) result }
{
    match upsert {
        Some(config) => latest_by(alloc, world, config, asked, text),
        None => Err(Refusal::NothingToDo),
    }
}

fn latest_by(
    alloc: Global,
    world: &mut World,
    config: &UpsertConfig,
    asked: QueryText,
    text: &mut String,
) -> Result<(), Refusal>
    requires unspent { world.old.spent ≡ false }
    requires config { IsUpsertConfig world.old.state.setup.schema config.now }
    requires fits { FitsText world.old.state.setup.schema asked }
    requires empty { string_bytes text.old ≡ [] }
    ensures { DoesText (LatestBy config.now asked) world.old.state world.new (string_bytes text.new) result }
{
    match asked {
        QueryText::Query(query) => latest_query(alloc, world, config, &query, text),
        QueryText::Refused(number) => pass_noquery(world, number, text),
    }
}

#[tactic(auto, using(rt_macros::proofs::Doing::does_then, rt_macros::proofs::Doing::does_refused, rt_macros::proofs::Doing::does_told, crate::proofs::PassedOver::passed_config, crate::proofs::PassedOver::passed_query))]
fn latest_query(
    alloc: Global,
    world: &mut World,
    config: &UpsertConfig,
    query: &Query,
    text: &mut String,
) -> Result<(), Refusal>
    requires unspent { world.old.spent ≡ false }
    requires config { IsUpsertConfig world.old.state.setup.schema config.now }
    requires fits { IsQuery world.old.state.setup.schema query.now }
    requires empty { string_bytes text.old ≡ [] }
    ensures { DoesText (LatestQuery config.now query.now) world.old.state world.new (string_bytes text.new) result }
{
    pass(world)?;
    let answer = latest(alloc, world, config, query)?;
    write_latest(alloc, text, &answer)?;
    Ok(())
}
