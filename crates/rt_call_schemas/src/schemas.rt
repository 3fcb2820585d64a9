use crate::tables::{KnownSchema, Tables};
use crate::values::write_row;
use rt_call_words::{Answer, Stop, Words};
use rt_schema::{Kind, Role, SchemaRefused, Table, read_row, read_schema, read_table};
use std::alloc::Global;

/// `schema TEXT`: reads a schema, which later lines use. The table is then `t` until one is read.
pub fn schema(
    alloc: Global,
    tables: &mut Tables,
    words: &mut Words,
    answer: &mut Answer,
) -> Result<(), Stop> {
    let bytes = words.message(alloc);
    words.ended()?;
    match str::from_utf8(bytes.as_slice()) {
        Ok(text) => take_schema(alloc, tables, text, answer),
        Err(_) => refuse(SchemaRefused::NotJson, answer),
    }
}

fn take_schema(
    alloc: Global,
    tables: &mut Tables,
    text: &str,
    answer: &mut Answer,
) -> Result<(), Stop> {
    match read_schema(alloc, text) {
        Ok(schema) => {
            answer.add("ok ");
            answer.number(schema.columns.len() as u64);
            answer.written()?;
            keep_schema(alloc, tables, KnownSchema { schema }, text)
        }
        Err(refused) => refuse(refused, answer),
    }
}

fn keep_schema(
    alloc: Global,
    tables: &mut Tables,
    known: KnownSchema,
    text: &str,
) -> Result<(), Stop> {
    tables.schema_text = String::from_str(alloc, text)?;
    tables.schema = Some(known);
    tables.table_text = String::new(alloc);
    tables.table = String::new(alloc);
    Ok(())
}

fn refuse(refused: SchemaRefused, answer: &mut Answer) -> Result<(), Stop> {
    match refused.number() {
        Some(number) => {
            answer.count(number);
            Ok(())
        }
        None => Err(Stop::Memory),
    }
}

/// `columns`: the schema's name, and `NAME:TYPE:ROLE` of each column.
pub fn columns(
    alloc: Global,
    tables: &Tables,
    words: &mut Words,
    answer: &mut Answer,
) -> Result<(), Stop> {
    words.ended()?;
    let schema = &tables.schema()?.schema;
    answer.json(alloc, schema.name.as_str());
    for column in schema.columns.as_slice() {
        answer.add(" ");
        answer.json(alloc, column.name.as_str());
        answer.add(type_name(column.kind));
        answer.add(role_name(column.role));
    }
    Ok(())
}

fn type_name(kind: Kind) -> &'static str {
    match kind {
        Kind::Int => ":INT",
        Kind::Long => ":LONG",
        Kind::Text => ":STRING",
        Kind::Bool => ":BOOLEAN",
        Kind::Time => ":TIMESTAMP",
    }
}

fn role_name(role: Role) -> &'static str {
    match role {
        Role::Dimension => ":dimension",
        Role::Metric => ":metric",
        Role::Moment => ":moment",
    }
}

/// `table TEXT`: reads table settings over the schema, which later lines use. Settings that begin with a brace are a
/// schema.
pub fn table(
    alloc: Global,
    tables: &mut Tables,
    words: &mut Words,
    answer: &mut Answer,
) -> Result<(), Stop> {
    if words.begins_with('{') {
        schema(alloc, tables, words, answer)
    } else {
        settings(alloc, tables, words, answer)
    }
}

/// `settings TEXT`: the same for settings that stand as they are, too.
pub fn settings(
    alloc: Global,
    tables: &mut Tables,
    words: &mut Words,
    answer: &mut Answer,
) -> Result<(), Stop> {
    let bytes = words.message(alloc);
    words.ended()?;
    match str::from_utf8(bytes.as_slice()) {
        Ok(text) => take_settings(alloc, tables, text, answer),
        Err(_) => refuse(SchemaRefused::NotJson, answer),
    }
}

fn take_settings(
    alloc: Global,
    tables: &mut Tables,
    text: &str,
    answer: &mut Answer,
) -> Result<(), Stop> {
    match read_table(alloc, text, &tables.schema()?.schema) {
        Ok(table) => {
            write_table(&table, answer);
            answer.written()?;
            keep_table(alloc, tables, table, text)
        }
        Err(refused) => refuse(refused, answer),
    }
}

fn keep_table(alloc: Global, tables: &mut Tables, table: Table, text: &str) -> Result<(), Stop> {
    tables.table_text = String::from_str(alloc, text)?;
    tables.table = table.name.into_string();
    Ok(())
}

fn write_table(table: &Table, answer: &mut Answer) {
    answer.add("ok ");
    answer.add(table.name.as_str());
    answer.add(" ");
    answer.count(table.replication);
    answer.add(" ");
    answer.count(table.rows);
    answer.add(" ");
    answer.number(table.millis);
    answer.add(" ");
    for (place, column) in table.indexed.as_slice().iter().enumerate() {
        answer.part(place, ",");
        answer.add(column.as_str());
    }
}

/// `row MESSAGE`: reads a message over the schema. One that begins with a brace is a schema.
pub fn row(
    alloc: Global,
    tables: &mut Tables,
    words: &mut Words,
    answer: &mut Answer,
) -> Result<(), Stop> {
    if words.begins_with('{') {
        schema(alloc, tables, words, answer)
    } else {
        message(alloc, tables, words, answer)
    }
}

/// `message MESSAGE`: the same for messages that stand as they are, too.
pub fn message(
    alloc: Global,
    tables: &Tables,
    words: &mut Words,
    answer: &mut Answer,
) -> Result<(), Stop> {
    let message = words.message(alloc);
    words.ended()?;
    match read_row(alloc, &tables.schema()?.schema, message.as_slice())? {
        Some(row) => write_row(alloc, &row, answer),
        None => answer.add("none"),
    }
    Ok(())
}
