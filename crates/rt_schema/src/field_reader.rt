ghost use Rattle.std.specs.Prelude.{◌≡◌, ◌++◌, IfOk, option_map};
ghost use Rattle.serde_json.specs.Find.{get};
ghost use Rattle.serde_json.specs.View.{view};
ghost use Rattle.rt_schema.specs.Json.{map_all};
ghost use Rattle.rt_schema.specs.Schema.{is_taken};
ghost use Rattle.rt_schema.specs.Field.{kind_named, kind_in, is_plain, field_of, fields_after, all_fields};

use crate::field::Field;
use crate::object::{is_false, is_given, text_at};
use crate::{Kind, Role};
use rt_lists::{Items, Text};
use serde_json::Value as Json;
use std::alloc::{AllocError, Global};

/// All fields of a schema text, in the order of the columns; None where one lacks a part.
pub(crate) fn read_fields(alloc: Global, json: &Json) -> Result<Option<Items<Field>>, AllocError>
    ensures { IfOk result (λ fields. fields ≡ all_fields (view json.now)) }
{
    let none = Items::new(alloc);
    let dimensions = fields_after(alloc, json, "dimensionFieldSpecs", Role::Dimension, none)?;
    let Some(dimensions) = dimensions else {
        return Ok(None);
    };
    let metrics = fields_after(alloc, json, "metricFieldSpecs", Role::Metric, dimensions)?;
    let Some(metrics) = metrics else {
        return Ok(None);
    };
    fields_after(alloc, json, "dateTimeFieldSpecs", Role::Moment, metrics)
}

// The fields at a key, behind others.
fn fields_after(
    alloc: Global,
    json: &Json,
    key: &str,
    role: Role,
    before: Items<Field>,
) -> Result<Option<Items<Field>>, AllocError>
    ensures { IfOk result (λ fields. fields ≡ fields_after role (get key.now (view json.now)) before) }
{
    match json.get(key) {
        None | Some(Json::Null) => Ok(Some(before)),
        Some(Json::Array(items)) => add_fields(alloc, items, role, before),
        Some(_) => Ok(None),
    }
}

fn add_fields(
    alloc: Global,
    items: &[Json],
    role: Role,
    mut fields: Items<Field>,
) -> Result<Option<Items<Field>>, AllocError>
    ensures { IfOk result (λ more. more
        ≡ option_map (λ later. fields ++ later) (map_all (λ item. field_of role (view item)) items.now)) }
{
    for item in items {
        match field(alloc, item, role)? {
            Some(field) => fields.push(field)?,
            None => return Ok(None),
        }
    }
    Ok(Some(fields))
}

fn field(alloc: Global, json: &Json, role: Role) -> Result<Option<Field>, AllocError>
    ensures { IfOk result (λ field. field ≡ field_of role (view json.now)) }
{
    let Some(name) = text_at(json, "name") else {
        return Ok(None);
    };
    let Some(data_type) = text_at(json, "dataType") else {
        return Ok(None);
    };
    let kind = kind_in(json, role, data_type);
    let name = Text::copied_from(alloc, name)?;
    Ok(Some(Field { name, kind, role }))
}

fn kind_in(json: &Json, role: Role, data_type: &str) -> Option<Kind>
    ensures { result ≡ kind_in role (view json.now) data_type.now }
{
    if !is_plain(json) {
        return None;
    }
    let kind = kind_named(data_type)?;
    if is_taken(kind, role) {
        Some(kind)
    } else {
        None
    }
}

// Default values, transformations and several values in a field aren't taken.
fn is_plain(json: &Json) -> bool
    ensures { result ≡ is_plain (view json.now) }
{
    !is_given(json.get("defaultNullValue"))
        && !is_given(json.get("transformFunction"))
        && !is_false(json.get("singleValueField"))
}

fn kind_named(data_type: &str) -> Option<Kind>
    ensures { result ≡ kind_named data_type.now }
{
    match data_type {
        "INT" => Some(Kind::Int),
        "LONG" => Some(Kind::Long),
        "STRING" => Some(Kind::Text),
        "BOOLEAN" => Some(Kind::Bool),
        "TIMESTAMP" => Some(Kind::Time),
        _ => None,
    }
}

fn is_taken(kind: Kind, role: Role) -> bool
    ensures { result ≡ is_taken kind role }
{
    match kind {
        Kind::Int | Kind::Long => true,
        Kind::Text | Kind::Time => role != Role::Metric,
        Kind::Bool => role == Role::Dimension,
    }
}
