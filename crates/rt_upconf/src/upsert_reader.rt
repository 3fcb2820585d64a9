ghost use Rattle.std.specs.Prelude.{◌≡◌, IfOk, IfSome, is_some, option_map};
ghost use Rattle.serde_json.specs.View.{view};
ghost use Rattle.rt_upconf.specs.Upsert.{Answers, are_columns, column_at, comparison_of, comparison_from, config_with, configured, fallback_of, full_of, is_comparable, keys_of, object_of, upsert_at, upsert_of, IsUpsertConfig};
ghost use Rattle.rt_upconf.specs.Told.{IsTold};

use crate::object::{inside, is_given, lent, object_at, read_object, text_at, text_of, texts_at};
use crate::time_column::time_of;
use crate::{UpsertConfig, UpsertRefused};
use rt_lists::{Items, Text};
use rt_schema::{Column, Kind, Schema};
use serde_json::Value as Json;
use std::alloc::{AllocError, Global};

/// The upsert settings of a table, from the texts that `read_schema` and `read_table` took: none where the table's text has
/// no `upsertConfig` or its mode is `NONE`. The keys are `primaryKeyColumns` of the schema's text. The comparison column is
/// the one of `comparisonColumns`; where that names none it is `comparisonColumn`, and where that is absent the time column of
/// `segmentsConfig`. A text that is no object counts as one without keys. Of the refusals the first that applies is answered.
pub fn read_upsert(
    alloc: Global,
    schema_text: &str,
    table_text: &str,
    schema: &Schema,
) -> Result<Option<UpsertConfig>, UpsertRefused>
    ensures config { Answers (upsert_of schema.now schema_text.now table_text.now) result }
    ensures columns { IfOk result (λ found. IfSome found (IsUpsertConfig schema.now)) }
    // Each answer and each refusal comes only where the texts say so.
    ensures told { IsTold schema.now.columns (object_of schema_text.now) (object_of table_text.now) result }
{
    read_texts(alloc, schema_text, table_text, schema)
}

fn read_texts(
    alloc: Global,
    schema_text: &str,
    table_text: &str,
    schema: &Schema,
) -> Result<Option<UpsertConfig>, UpsertRefused>
    ensures { Answers (upsert_of schema.now schema_text.now table_text.now) result }
{
    let columns = schema.columns.as_slice();
    let keyed = read_object(alloc, schema_text)?;
    let table = read_object(alloc, table_text)?;
    upsert_at(alloc, columns, lent(&keyed), lent(&table))
}

fn upsert_at(
    alloc: Global,
    columns: &[Column],
    keyed: Option<&Json>,
    table: Option<&Json>,
) -> Result<Option<UpsertConfig>, UpsertRefused>
    ensures { Answers (upsert_at columns.now (option_map (λ json. view json.now) keyed.entry) (option_map (λ json. view json.now) table.entry)) result }
{
    let found = inside(table, "upsertConfig");
    if !is_given(found) {
        return Ok(None);
    }
    let Some(config) = object_at(found) else {
        return Err(UpsertRefused::NotObject);
    };
    configured(alloc, columns, keyed, time_of(table), config)
}

// What the settings say by their mode.
fn configured(
    alloc: Global,
    columns: &[Column],
    keyed: Option<&Json>,
    time: Option<&str>,
    config: &Json,
) -> Result<Option<UpsertConfig>, UpsertRefused>
    ensures { Answers (configured columns.now (option_map (λ json. view json.now) keyed.entry) (option_map (λ text. text.now) time.entry) (view config.now)) result }
{
    let Some(mode) = text_at(config, "mode") else {
        return Err(UpsertRefused::Mode);
    };
    if mode == "NONE" {
        return Ok(None);
    }
    if mode != "FULL" {
        return Err(UpsertRefused::Mode);
    }
    full_of(alloc, columns, keyed, time, config)
}

fn full_of(
    alloc: Global,
    columns: &[Column],
    keyed: Option<&Json>,
    time: Option<&str>,
    config: &Json,
) -> Result<Option<UpsertConfig>, UpsertRefused>
    ensures { Answers (full_of columns.now (option_map (λ json. view json.now) keyed.entry) (option_map (λ text. text.now) time.entry) (view config.now)) result }
{
    let Some(keys) = keys_of(alloc, keyed)? else {
        return Err(UpsertRefused::NoKeys);
    };
    let Some(compare) = comparison_of(alloc, config, time)? else {
        return Err(UpsertRefused::Comparison);
    };
    config_with(columns, keys, compare)
}

// The key columns, of which there is at least one.
fn keys_of(alloc: Global, keyed: Option<&Json>) -> Result<Option<Items<Text>>, AllocError>
    ensures { IfOk result (λ keys. keys ≡ keys_of (option_map (λ json. view json.now) keyed.entry)) }
{
    let Some(keys) = texts_at(alloc, inside(keyed, "primaryKeyColumns"))? else {
        return Ok(None);
    };
    if keys.is_empty() {
        return Ok(None);
    }
    Ok(Some(keys))
}

// The name of the comparison column, where one is named; None where the settings name it in no way that is taken.
fn comparison_of(
    alloc: Global,
    config: &Json,
    time: Option<&str>,
) -> Result<Option<Option<Text>>, AllocError>
    ensures { IfOk result (λ named. named ≡ comparison_of (view config.now) (option_map (λ text. text.now) time.entry)) }
{
    let Some(names) = texts_at(alloc, config.get("comparisonColumns"))? else {
        return Ok(None);
    };
    comparison_from(
        alloc,
        names.as_slice(),
        config.get("comparisonColumn"),
        time,
    )
}

fn comparison_from(
    alloc: Global,
    names: &[Text],
    single: Option<&Json>,
    time: Option<&str>,
) -> Result<Option<Option<Text>>, AllocError>
    ensures { IfOk result (λ named. named ≡ comparison_from (option_map (λ json. view json.now) single.entry) (option_map (λ text. text.now) time.entry) names.now) }
{
    match names {
        [] => fallback_of(alloc, single, time),
        [name] => Ok(Some(Some(name.copy(alloc)?))),
        _ => Ok(None),
    }
}

fn fallback_of(
    alloc: Global,
    single: Option<&Json>,
    time: Option<&str>,
) -> Result<Option<Option<Text>>, AllocError>
    ensures { IfOk result (λ named. named ≡ fallback_of (option_map (λ json. view json.now) single.entry) (option_map (λ text. text.now) time.entry)) }
{
    if !is_given(single) {
        return match time {
            Some(name) => Ok(Some(Some(Text::copied_from(alloc, name)?))),
            None => Ok(Some(None)),
        };
    }
    match text_of(single) {
        Some(name) => Ok(Some(Some(Text::copied_from(alloc, name)?))),
        None => Ok(None),
    }
}

fn config_with(
    columns: &[Column],
    keys: Items<Text>,
    compare: Option<Text>,
) -> Result<Option<UpsertConfig>, UpsertRefused>
    ensures { result ≡ config_with columns.now keys compare }
{
    let Some(compare) = compare else {
        return Err(UpsertRefused::NoColumn);
    };
    if !are_columns(keys.as_slice(), columns) {
        return Err(UpsertRefused::NoColumn);
    }
    let Some(column) = column_at(compare.as_str(), columns) else {
        return Err(UpsertRefused::NoColumn);
    };
    if !is_comparable(column.kind) {
        return Err(UpsertRefused::WrongType);
    }
    Ok(Some(UpsertConfig { keys, compare }))
}

fn are_columns(names: &[Text], columns: &[Column]) -> bool
    ensures { result ≡ are_columns columns.now names.now }
{
    for name in names {
        if !is_column(name.as_str(), columns) {
            return false;
        }
    }
    true
}

fn is_column(name: &str, columns: &[Column]) -> bool
    ensures { result ≡ is_some (column_at name.now columns.now) }
{
    for column in columns {
        if name == column.name.as_str() {
            return true;
        }
    }
    false
}

fn column_at<'a>(name: &str, columns: &'a [Column]) -> Option<&'a Column>
    ensures { option_map (λ column. column.now) result ≡ column_at name.now columns.now }
{
    for column in columns {
        if name == column.name.as_str() {
            return Some(column);
        }
    }
    None
}

// Whether rows are compared by the values of such a column.
fn is_comparable(kind: Kind) -> bool
    ensures { result ≡ is_comparable kind }
{
    match kind {
        Kind::Int | Kind::Long | Kind::Time => true,
        Kind::Text | Kind::Bool => false,
    }
}
