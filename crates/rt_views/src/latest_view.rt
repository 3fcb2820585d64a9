ghost use Rattle.std.specs.Prelude.{◌≡◌, ◌+◌, ◌<◌, ◌≤◌, All, length, map, IfOk, IsFalse, OnOk};
ghost use Rattle.rt_schema.specs.Value.{kind_of};
ghost use Rattle.rt_agg.specs.Grouped.{Holds};
ghost use Rattle.rt_hybrid.specs.Adding.{AddsRows};
ghost use Rattle.rt_model.specs.Aggregate.{aggregate, taken};
ghost use Rattle.rt_model.specs.Checked.{IsQuery};
ghost use Rattle.rt_upconf.specs.Upsert.{IsUpsertConfig};
ghost use Rattle.rt_views.specs.Answers.{latest_answer};
ghost use Rattle.rt_views.specs.Placing.{latest_found, latest_viewed, put_all, put_at, put_from};
ghost use Rattle.rt_views.specs.Views.{rows_found, rows_if, rows_viewed};

use crate::naming::answer_with;
use crate::room::check_room;
use crate::rows::rows_if;
use crate::viewing::views_whole;
use crate::{Found, View};
use rt_agg::Groups;
use rt_base::Sequence;
use rt_lists::Items;
use rt_model::{Answer, Query, ResultRow};
use rt_schema::{Row, Schema};
use rt_upconf::UpsertConfig;
use rt_upsert::{AddRefused, Place, Upsert};
use rt_world::World;
use std::alloc::{AllocError, Global};

/// The answer to a query over the latest rows of each partition, of which all pieces of the present plan are taken from the first
/// assigned server that is up and serves every one of them; without such a server each piece is missing. One key in two
/// partitions counts in each. Fails where memory is refused, and in the same way beyond 2^62 rows, or 4,294,967,295 of one piece.
pub fn latest(
    alloc: Global,
    world: &World,
    config: &UpsertConfig,
    query: &Query,
) -> Result<Answer, AllocError>
    requires whole { IsFalse world.now.spent }
    requires config { IsUpsertConfig world.now.state.setup.schema config.now }
    requires query { IsQuery world.now.state.setup.schema query.now }
    ensures { IfOk result (λ answer. answer ≡ latest_answer world.now.state config.now query.now) }
{
    let views = views_whole(alloc, world)?;
    let schema = &world.setup().schema;
    let rows = latest_rows(alloc, schema, config, query, views.as_slice())?;
    answer_with(alloc, views.as_slice(), rows)
}

// The result rows over the latest rows of each partition.
fn latest_rows(
    alloc: Global,
    schema: &Schema,
    config: &UpsertConfig,
    query: &Query,
    views: &[View],
) -> Result<Items<ResultRow>, AllocError>
    requires config { IsUpsertConfig schema.now config.now }
    requires query { IsQuery schema.now query.now }
    ensures { IfOk result (λ rows. rows ≡ aggregate query.now (latest_viewed schema.now config.now views.now)) }
{
    check_room(views)?;
    let mut groups = Groups::make(alloc, query)?;
    add_views(alloc, &mut groups, schema, config, query, views)?;
    let rows = groups.finish(alloc)?;
    Ok(rows)
}

fn add_views(
    alloc: Global,
    groups: &mut Groups,
    schema: &Schema,
    config: &UpsertConfig,
    query: &Query,
    views: &[View],
) -> Result<(), AllocError>
    requires config { IsUpsertConfig schema.now config.now }
    requires query { IsQuery schema.now query.now }
    requires few { length (rows_viewed schema.now views.now) ≤ 4611686018427387904 }
    ensures { OnOk result (AddsRows query.now (taken query.now (latest_viewed schema.now config.now views.now)) groups.old groups.new) }
{
    for view in views {
        let more = latest_groups(alloc, schema, config, query, view.found.as_slice())?;
        groups.merge(alloc, &more)?;
    }
    Ok(())
}

// The groups of the latest rows of a partition that a query takes.
fn latest_groups(
    alloc: Global,
    schema: &Schema,
    config: &UpsertConfig,
    query: &Query,
    found: &[Found],
) -> Result<Groups, AllocError>
    requires config { IsUpsertConfig schema.now config.now }
    requires query { IsQuery schema.now query.now }
    requires few { length (rows_found schema.now found.now) ≤ 4611686018427387904 }
    ensures { IfOk result (Holds query.now (taken query.now (latest_found schema.now config.now found.now))) }
{
    let mut upsert = Upsert::make(alloc, schema, config)?;
    put_all(alloc, &mut upsert, schema, found)?;
    upsert.answer(alloc, query)
}

// Puts the rows of each piece of a partition that was found.
fn put_all(
    alloc: Global,
    upsert: &mut Upsert,
    schema: &Schema,
    found: &[Found],
) -> Result<(), AllocError>
    requires kinds { upsert.old.kinds ≡ map (λ column. column.kind) schema.now.columns }
    requires few { length upsert.old.rows + length (rows_found schema.now found.now) ≤ 4611686018427387904 }
    ensures { OnOk result (upsert.new ≡ put_all schema.now upsert.old found.now) }
{
    for piece in found {
        put_piece(alloc, upsert, schema, piece)?;
    }
    Ok(())
}

fn put_piece(
    alloc: Global,
    upsert: &mut Upsert,
    schema: &Schema,
    piece: &Found,
) -> Result<(), AllocError>
    requires kinds { upsert.old.kinds ≡ map (λ column. column.kind) schema.now.columns }
    requires few { length upsert.old.rows + length (rows_if schema.now piece.now.rows) ≤ 4611686018427387904 }
    ensures { OnOk result (upsert.new ≡ put_from piece.now.piece.sequence 0 upsert.old (rows_if schema.now piece.now.rows)) }
{
    let rows = rows_if(schema, piece);
    put_rows(alloc, upsert, piece.piece.sequence, rows)
}

// Puts the rows of a piece at their numbers.
fn put_rows(
    alloc: Global,
    upsert: &mut Upsert,
    sequence: Sequence,
    rows: &[Row],
) -> Result<(), AllocError>
    requires kinds { All (λ row. map kind_of row.values ≡ upsert.old.kinds) rows.now }
    requires few { length upsert.old.rows + length rows.now ≤ 4611686018427387904 }
    ensures { OnOk result (upsert.new ≡ put_from sequence 0 upsert.old rows.now) }
{
    let mut number = 0;
    for row in rows {
        if number == u32::MAX {
            return Err(AllocError);
        }
        let place = Place {
            sequence,
            row: number,
        };
        put_at(alloc, upsert, place, row)?;
        number += 1;
    }
    Ok(())
}

fn put_at(alloc: Global, upsert: &mut Upsert, place: Place, row: &Row) -> Result<(), AllocError>
    requires kinds { map kind_of row.now.values ≡ upsert.old.kinds }
    requires row { place.row < 4294967295 }
    requires few { length upsert.old.rows + 1 < 9223372036854775808 }
    ensures { OnOk result (upsert.new ≡ put_at upsert.old place row.now) }
{
    match upsert.add(alloc, place, row) {
        Ok(()) => Ok(()),
        Err(AddRefused::Taken(_)) => Ok(()),
        Err(AddRefused::Memory) => Err(AllocError),
    }
}
