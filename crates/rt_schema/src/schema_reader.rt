ghost use Rattle.std.specs.Prelude.{◌≡◌, IfOk};
ghost use Rattle.rt_schema.specs.Field.{column_of};
ghost use Rattle.rt_schema.specs.Json.{map_all};
ghost use Rattle.rt_schema.specs.Schema.{names_of, are_distinct, are_named, IsSchema};
ghost use Rattle.rt_schema.specs.SchemaText.{Answers, schema_of};

use crate::field::Field;
use crate::field_reader::read_fields;
use crate::object::{read_object, text_at};
use crate::{Column, Schema, SchemaRefused};
use rt_base::limits::{LONGEST_NAME, MOST_COLUMNS};
use rt_lists::{Items, Text};
use std::alloc::{AllocError, Global};
use std::collections::BTreeSet;

/// The schema of a JSON text: an object with `schemaName` and the fields of `dimensionFieldSpecs`,
/// `metricFieldSpecs` and `dateTimeFieldSpecs`, in this order. Of the refusals the first that applies is
/// answered, by their order and not by their places in the text.
#[tactic(auto, using(crate::proofs::Schemas::answered_is_schema))]
pub fn read_schema(alloc: Global, text: &str) -> Result<Schema, SchemaRefused>
    ensures schema { Answers (schema_of text.now) result }
    ensures taken { IfOk result IsSchema }
{
    read_text(alloc, text)
}

fn read_text(alloc: Global, text: &str) -> Result<Schema, SchemaRefused>
    ensures { Answers (schema_of text.now) result }
{
    let Some(json) = read_object(alloc, text)? else {
        return Err(SchemaRefused::NotJson);
    };
    let Some(name) = text_at(&json, "schemaName") else {
        return Err(SchemaRefused::MissingField);
    };
    let Some(fields) = read_fields(alloc, &json)? else {
        return Err(SchemaRefused::MissingField);
    };
    if fields.is_empty() {
        return Err(SchemaRefused::MissingField);
    }
    let Some(columns) = columns_of(alloc, fields.as_slice())? else {
        return Err(SchemaRefused::UnknownType);
    };
    if !are_distinct(alloc, columns.as_slice())? {
        return Err(SchemaRefused::DuplicateColumn);
    }
    if columns.len() > MOST_COLUMNS || !are_named(columns.as_slice()) {
        return Err(SchemaRefused::Limit);
    }
    let name = Text::copied_from(alloc, name)?;
    Ok(Schema { name, columns })
}

// The columns of fields whose types are taken.
fn columns_of(alloc: Global, fields: &[Field]) -> Result<Option<Items<Column>>, AllocError>
    ensures { IfOk result (λ columns. columns ≡ map_all column_of fields.now) }
{
    let mut columns = Items::new(alloc);
    for field in fields {
        let Some(kind) = field.kind else {
            return Ok(None);
        };
        let name = field.name.copy(alloc)?;
        columns.push(Column {
            name,
            kind,
            role: field.role,
        })?;
    }
    Ok(Some(columns))
}

fn are_distinct(alloc: Global, columns: &[Column]) -> Result<bool, AllocError>
    ensures { IfOk result (λ answer. answer ≡ are_distinct (names_of columns.now)) }
{
    let mut names = BTreeSet::new(alloc);
    for column in columns {
        if !names.insert(column.name.as_str())? {
            return Ok(false);
        }
    }
    Ok(true)
}

fn are_named(columns: &[Column]) -> bool
    ensures { result ≡ are_named columns.now }
{
    for column in columns {
        if column.name.is_empty() || column.name.len() > LONGEST_NAME {
            return false;
        }
    }
    true
}
