ghost use Rattle.std.specs.Prelude.{◌≡◌, IfOk, map, option_map, option_and_then};
ghost use Rattle.serde_json.specs.Find.{as_str, as_array};
ghost use Rattle.serde_json.specs.View.{view, items_view};
ghost use Rattle.rt_names.specs.Table.{is_table_name};
ghost use Rattle.rt_schema.specs.Json.{map_all};
ghost use Rattle.rt_schema.specs.Schema.{names_of, is_among};
ghost use Rattle.rt_schema.specs.SchemaText.{Answers};
ghost use Rattle.rt_schema.specs.TableText.{is_section, inside, replication_of, row_limit, rows_of, millis_of, stream_of, texts_at, all_among, chosen_of, indexed_of, index_of, base_name, table_with, table_in, table_of, IsTable};

use crate::index_config::{IndexConfig, StreamConfig};
use crate::object::{is_given, read_object, text_at};
use crate::setting::{number_of, time_of};
use crate::{Column, Schema, SchemaRefused, Table};
use rt_base::limits::MOST_ROWS;
use rt_lists::{Items, Text, is_among};
use rt_names::is_table_name;
use serde_json::Value as Json;
use std::alloc::{AllocError, Global};

/// The settings of a table in a JSON text, for the columns of a schema. Of the refusals the first that
/// applies is answered, by their order and not by their places in the text.
pub fn read_table(alloc: Global, text: &str, schema: &Schema) -> Result<Table, SchemaRefused>
    ensures table { Answers (table_of schema.now text.now) result }
    ensures limits { IfOk result (IsTable schema.now) }
{
    read_text(alloc, text, schema)
}

fn read_text(alloc: Global, text: &str, schema: &Schema) -> Result<Table, SchemaRefused>
    ensures { Answers (table_of schema.now text.now) result }
{
    match read_object(alloc, text)? {
        Some(json) => table_in(alloc, schema.columns.as_slice(), &json),
        None => Err(SchemaRefused::NotJson),
    }
}

fn table_in(alloc: Global, columns: &[Column], json: &Json) -> Result<Table, SchemaRefused>
    ensures { Answers (table_in (names_of columns.now) (view json.now)) result }
{
    let Some(name) = text_at(json, "tableName") else {
        return Err(SchemaRefused::MissingField);
    };
    let Some(table_type) = text_at(json, "tableType") else {
        return Err(SchemaRefused::MissingField);
    };
    let Some(replication) = replication_of(json.get("segmentsConfig")) else {
        return Err(SchemaRefused::MissingField);
    };
    let Some(index) = index_of(alloc, columns, json.get("tableIndexConfig"))? else {
        return Err(SchemaRefused::MissingField);
    };
    table_with(alloc, name, table_type, replication, index)
}

fn table_with(
    alloc: Global,
    name: &str,
    table_type: &str,
    replication: u64,
    index: IndexConfig,
) -> Result<Table, SchemaRefused>
    ensures { Answers (table_with name.now table_type.now replication index) result }
{
    if table_type != "REALTIME" {
        return Err(SchemaRefused::UnknownType);
    }
    let name = base_name(name);
    if !is_table_name(name) || replication == 0 {
        return Err(SchemaRefused::Limit);
    }
    let IndexConfig { indexed, stream } = index;
    Ok(Table {
        name: Text::copied_from(alloc, name)?,
        replication: replication.min(u64::from(u32::MAX)) as u32,
        indexed,
        rows: stream.rows,
        millis: stream.millis,
    })
}

// The replicas of each segment. The second key counts only where the first is absent or null.
fn replication_of(section: Option<&Json>) -> Option<u64>
    ensures { result ≡ replication_of (option_map (λ json. view json.now) section.entry) }
{
    let section = section?;
    let first = section.get("replicasPerPartition");
    if is_given(first) {
        first.and_then(number_of)
    } else {
        section.get("replication").and_then(number_of)
    }
}

fn index_of(
    alloc: Global,
    columns: &[Column],
    section: Option<&Json>,
) -> Result<Option<IndexConfig>, AllocError>
    ensures { IfOk result (λ index. index
        ≡ index_of (names_of columns.now) (option_map (λ json. view json.now) section.entry)) }
{
    if !is_section(section) {
        return Ok(None);
    }
    let Some(indexed) = indexed_of(alloc, columns, inside(section, "invertedIndexColumns"))? else {
        return Ok(None);
    };
    let Some(stream) = stream_of(inside(section, "streamConfigs")) else {
        return Ok(None);
    };
    Ok(Some(IndexConfig { indexed, stream }))
}

fn stream_of(section: Option<&Json>) -> Option<StreamConfig>
    ensures { result ≡ stream_of (option_map (λ json. view json.now) section.entry) }
{
    if !is_section(section) {
        return None;
    }
    let rows = rows_of(inside(section, "realtime.segment.flush.threshold.rows"))?;
    let millis = millis_of(inside(section, "realtime.segment.flush.threshold.time"))?;
    Some(StreamConfig { rows, millis })
}

// A section is an object, or absent or null.
fn is_section(found: Option<&Json>) -> bool
    ensures { result ≡ is_section (option_map (λ json. view json.now) found.entry) }
{
    match found {
        None | Some(Json::Null | Json::Object(_)) => true,
        Some(_) => false,
    }
}

fn inside<'a>(section: Option<&'a Json>, key: &str) -> Option<&'a Json>
    ensures { option_map (λ json. view json.now) result
        ≡ inside key.now (option_map (λ json. view json.now) section.entry) }
{
    section?.get(key)
}

fn rows_of(found: Option<&Json>) -> Option<u32>
    ensures { result ≡ rows_of (option_map (λ json. view json.now) found.entry) }
{
    if is_given(found) {
        found.and_then(number_of).map(row_limit)
    } else {
        Some(MOST_ROWS)
    }
}

// 0 and larger numbers count as the most rows.
fn row_limit(rows: u64) -> u32
    ensures { result ≡ row_limit rows }
{
    if rows == 0 || rows > u64::from(MOST_ROWS) {
        MOST_ROWS
    } else {
        rows as u32
    }
}

fn millis_of(found: Option<&Json>) -> Option<u64>
    ensures { result ≡ millis_of (option_map (λ json. view json.now) found.entry) }
{
    if is_given(found) {
        found.and_then(time_of)
    } else {
        Some(21_600_000)
    }
}

// The indexed columns, each once; None where what is asked for isn't texts that are columns' names.
fn indexed_of(
    alloc: Global,
    columns: &[Column],
    found: Option<&Json>,
) -> Result<Option<Items<Text>>, AllocError>
    ensures { IfOk result (λ indexed. indexed
        ≡ indexed_of (names_of columns.now) (option_map (λ json. view json.now) found.entry)) }
{
    match texts_at(alloc, found)? {
        Some(asked) => chosen_of(alloc, columns, asked.as_slice()),
        None => Ok(None),
    }
}

fn texts_at(alloc: Global, found: Option<&Json>) -> Result<Option<Items<Text>>, AllocError>
    ensures { IfOk result (λ texts. texts ≡ texts_at (option_map (λ json. view json.now) found.entry)) }
{
    if !is_given(found) {
        return Ok(Some(Items::new(alloc)));
    }
    match array_at(found) {
        Some(items) => texts_of(alloc, items),
        None => Ok(None),
    }
}

fn array_at(found: Option<&Json>) -> Option<&Vec<Json>>
    ensures { option_map (λ items. items_view items.now.items) result
        ≡ option_and_then as_array (option_map (λ json. view json.now) found.entry) }
{
    found?.as_array()
}

fn texts_of(alloc: Global, items: &[Json]) -> Result<Option<Items<Text>>, AllocError>
    ensures { IfOk result (λ texts. texts ≡ map_all (λ item. as_str (view item)) items.now) }
{
    let mut texts = Items::new(alloc);
    for item in items {
        let Some(text) = item.as_str() else {
            return Ok(None);
        };
        texts.push(Text::copied_from(alloc, text)?)?;
    }
    Ok(Some(texts))
}

fn chosen_of(
    alloc: Global,
    columns: &[Column],
    asked: &[Text],
) -> Result<Option<Items<Text>>, AllocError>
    ensures { IfOk result (λ chosen. chosen ≡ chosen_of (names_of columns.now) asked.now) }
{
    if !all_among(asked, columns) {
        return Ok(None);
    }
    let mut chosen = Items::new(alloc);
    for column in columns {
        if is_among(column.name.as_str(), asked) {
            chosen.push(column.name.copy(alloc)?)?;
        }
    }
    Ok(Some(chosen))
}

fn all_among(asked: &[Text], columns: &[Column]) -> bool
    ensures { result ≡ all_among asked.now (names_of columns.now) }
{
    for text in asked {
        if !is_column(text.as_str(), columns) {
            return false;
        }
    }
    true
}

fn is_column(name: &str, columns: &[Column]) -> bool
    ensures { result ≡ is_among name.now (names_of columns.now) }
{
    for column in columns {
        if name == column.name.as_str() {
            return true;
        }
    }
    false
}

// One suffix is removed.
fn base_name(name: &str) -> &str
    ensures { result.now ≡ base_name name.now }
{
    match name.strip_suffix("_REALTIME") {
        Some(base) => base,
        None => name,
    }
}
