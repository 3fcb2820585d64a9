ghost use Rattle.std.specs.Prelude.{◌≡◌, IfOk, IsFalse, OnOk};
ghost use Rattle.rt_hybrid.specs.Adding.{AddsRows};
ghost use Rattle.rt_hybrid.specs.Sides.{hybrid_rows, realtime_side};
ghost use Rattle.rt_model.specs.Aggregate.{aggregate, taken};
ghost use Rattle.rt_model.specs.Checked.{IsQuery};
ghost use Rattle.rt_views.specs.Answers.{hybrid_answer};
ghost use Rattle.rt_views.specs.Views.{rows_found, rows_if, rows_viewed};

use crate::naming::answer_with;
use crate::room::check_room;
use crate::rows::rows_if;
use crate::viewing::views_each;
use crate::{Found, View};
use rt_agg::Groups;
use rt_hybrid::Hybrid;
use rt_lists::Items;
use rt_model::{Answer, Query, ResultRow};
use rt_schema::Schema;
use rt_world::World;
use std::alloc::{AllocError, Global};

/// The answer to a query over the offline rows at or before the boundary and the realtime rows past it; each piece of the present
/// plan is taken from the first assigned server that serves it. Fails where memory is refused, and in the same way beyond 2^62
/// realtime rows.
pub fn hybrid(
    alloc: Global,
    world: &World,
    table: &Hybrid,
    query: &Query,
) -> Result<Answer, AllocError>
    requires whole { IsFalse world.now.spent }
    requires schema { table.now.schema ≡ world.now.state.setup.schema }
    requires query { IsQuery table.now.schema query.now }
    ensures { IfOk result (λ answer. answer ≡ hybrid_answer world.now.state table.now query.now) }
{
    let views = views_each(alloc, world)?;
    let schema = &world.setup().schema;
    let rows = hybrid_result(alloc, schema, table, query, views.as_slice())?;
    answer_with(alloc, views.as_slice(), rows)
}

// The result rows over both sides.
fn hybrid_result(
    alloc: Global,
    schema: &Schema,
    table: &Hybrid,
    query: &Query,
    views: &[View],
) -> Result<Items<ResultRow>, AllocError>
    requires schema { table.now.schema ≡ schema.now }
    requires query { IsQuery table.now.schema query.now }
    ensures { IfOk result (λ rows. rows ≡ aggregate query.now (hybrid_rows table.now (rows_viewed schema.now views.now))) }
{
    check_room(views)?;
    let mut groups = table.offline(alloc, query)?;
    add_views(alloc, &mut groups, schema, table, query, views)?;
    let rows = groups.finish(alloc)?;
    Ok(rows)
}

fn add_views(
    alloc: Global,
    groups: &mut Groups,
    schema: &Schema,
    table: &Hybrid,
    query: &Query,
    views: &[View],
) -> Result<(), AllocError>
    requires schema { table.now.schema ≡ schema.now }
    requires query { IsQuery table.now.schema query.now }
    ensures { OnOk result (AddsRows query.now (taken query.now (realtime_side table.now (rows_viewed schema.now views.now))) groups.old groups.new) }
{
    for view in views {
        add_found(alloc, groups, schema, table, query, view.found.as_slice())?;
    }
    Ok(())
}

fn add_found(
    alloc: Global,
    groups: &mut Groups,
    schema: &Schema,
    table: &Hybrid,
    query: &Query,
    found: &[Found],
) -> Result<(), AllocError>
    requires schema { table.now.schema ≡ schema.now }
    requires query { IsQuery table.now.schema query.now }
    ensures { OnOk result (AddsRows query.now (taken query.now (realtime_side table.now (rows_found schema.now found.now))) groups.old groups.new) }
{
    for piece in found {
        add_piece(alloc, groups, schema, table, query, piece)?;
    }
    Ok(())
}

// Adds the rows of a piece that lie past the boundary and that a query takes.
fn add_piece(
    alloc: Global,
    groups: &mut Groups,
    schema: &Schema,
    table: &Hybrid,
    query: &Query,
    piece: &Found,
) -> Result<(), AllocError>
    requires schema { table.now.schema ≡ schema.now }
    requires query { IsQuery table.now.schema query.now }
    ensures { OnOk result (AddsRows query.now (taken query.now (realtime_side table.now (rows_if schema.now piece.now.rows))) groups.old groups.new) }
{
    let more = table.realtime(alloc, query, rows_if(schema, piece))?;
    groups.merge(alloc, &more)?;
    Ok(())
}
