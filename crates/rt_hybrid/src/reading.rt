//! The objects of a text that is pushed, and which columns they have.
ghost use Rattle.std.specs.Prelude.{◌≡◌, [], IfOk, filter, map, option_map, option_and_then, is_some};
ghost use Rattle.serde_json.specs.Find.{get, as_array};
ghost use Rattle.serde_json.specs.Read.{read};
ghost use Rattle.serde_json.specs.View.{view};
ghost use Rattle.rt_hybrid.specs.Batch.{are_few, array_in, columns_kept, if_few, is_named, or_first};

use rt_lists::{Copied, Items};
use rt_schema::Column;
use serde_json::Value as Json;
use std::alloc::{AllocError, Global};

/// The objects of a push. A file's rows fit in memory, with room for many files.
const MOST_PUSHED: usize = 10_000;

/// The JSON value that a text is.
pub(crate) fn read_json(alloc: Global, text: &str) -> Result<Option<Json>, AllocError>
    ensures { IfOk result (λ json. option_map view json ≡ read text.now) }
{
    match Json::from_str(alloc, text) {
        Ok(json) => Ok(Some(json)),
        Err(error) => if error.is_memory() {
            Err(AllocError)
        } else {
            Ok(None)
        },
    }
}

/// The items of an array of at least one, and no more than a push takes.
pub(crate) fn few_items(json: &Json) -> Option<&[Json]>
    ensures { option_map (λ items. map view items.now) result ≡ option_and_then if_few (array_in (view json.now)) }
{
    let items = json.as_array()?.as_slice();
    if are_few(items.len()) {
        Some(items)
    } else {
        None
    }
}

fn are_few(count: usize) -> bool
    ensures { result ≡ are_few count }
{
    1 <= count && count <= MOST_PUSHED
}

/// The columns that some object has as a key, or the first column where there is none.
pub(crate) fn columns_kept(
    alloc: Global,
    columns: &[Column],
    items: &[Json],
) -> Result<Items<Column>, AllocError>
    ensures { IfOk result (λ kept. kept ≡ columns_kept columns.now (map view items.now)) }
{
    let named = columns_named(alloc, columns, items)?;
    if named.is_empty() {
        first_column(alloc, columns)
    } else {
        Ok(named)
    }
}

fn columns_named(
    alloc: Global,
    columns: &[Column],
    items: &[Json],
) -> Result<Items<Column>, AllocError>
    ensures { IfOk result (λ named. named ≡ filter (is_named (map view items.now)) columns.now) }
{
    let mut named = Items::new(alloc);
    for column in columns {
        if is_named(column, items) {
            named.push(column.copied(alloc)?)?;
        }
    }
    Ok(named)
}

fn first_column(alloc: Global, columns: &[Column]) -> Result<Items<Column>, AllocError>
    ensures { IfOk result (λ first. first ≡ or_first columns.now []) }
{
    let mut first = Items::new(alloc);
    if let Some(column) = columns.first() {
        first.push(column.copied(alloc)?)?;
    }
    Ok(first)
}

// Whether some object has the column's key.
fn is_named(column: &Column, items: &[Json]) -> bool
    ensures { result ≡ is_named (map view items.now) column.now }
{
    for item in items {
        if item.get(column.name.as_str()).is_some() {
            return true;
        }
    }
    false
}
