ghost use Rattle.rt_schema.specs.Schema.{IsSchema};

use crate::asked::Asked;
use crate::trees::write_query;
use rt_call_schemas::{Tables, schema};
use rt_call_words::{Answer, Stop, Words};
use rt_schema::Schema;
use rt_sql::{SqlRefused, parse};
use std::alloc::Global;

/// `sql TEXT`: reads a query over the schema and the table, which later lines use. A text that begins with a brace is a
/// schema.
pub fn sql(
    alloc: Global,
    tables: &mut Tables,
    asked: &mut Asked,
    words: &mut Words,
    answer: &mut Answer,
) -> Result<(), Stop> {
    if words.begins_with('{') {
        return schema(alloc, tables, words, answer);
    }
    let bytes = words.bytes(alloc);
    words.ended()?;
    match str::from_utf8(bytes.as_slice()) {
        Ok(text) => take_query(alloc, tables, asked, text, answer),
        Err(_) => Err(Stop::Refused),
    }
}

/// `query TEXT`: the same, for a text that stands as it is.
pub fn query(
    alloc: Global,
    tables: &Tables,
    asked: &mut Asked,
    words: &mut Words,
    answer: &mut Answer,
) -> Result<(), Stop> {
    let text = words.rest();
    words.ended()?;
    take_query(alloc, tables, asked, text, answer)
}

fn take_query(
    alloc: Global,
    tables: &Tables,
    asked: &mut Asked,
    text: &str,
    answer: &mut Answer,
) -> Result<(), Stop> {
    match read_query(alloc, text, &tables.schema()?.schema, tables.table()) {
        Ok(()) => {
            answer.add("ok");
            answer.written()?;
            asked.begin(String::from_str(alloc, text)?);
            Ok(())
        }
        Err(refused) => refuse(refused, answer),
    }
}

// Reads a query for its refusal alone.
fn read_query(alloc: Global, text: &str, schema: &Schema, table: &str) -> Result<(), SqlRefused>
    requires { IsSchema schema.now }
{
    match parse(alloc, text, schema, table) {
        Ok(_query) => Ok(()),
        Err(refused) => Err(refused),
    }
}

/// `tree TEXT`: the parts of a query.
pub fn tree(
    alloc: Global,
    tables: &Tables,
    words: &mut Words,
    answer: &mut Answer,
) -> Result<(), Stop> {
    let bytes = words.message(alloc);
    words.ended()?;
    let Ok(text) = str::from_utf8(bytes.as_slice()) else {
        return Err(Stop::Refused);
    };
    match parse(alloc, text, &tables.schema()?.schema, tables.table()) {
        Ok(query) => {
            write_query(alloc, &query, answer);
            Ok(())
        }
        Err(refused) => refuse(refused, answer),
    }
}

fn refuse(refused: SqlRefused, answer: &mut Answer) -> Result<(), Stop> {
    match refused {
        SqlRefused::Syntax { byte } => {
            answer.add("syntax ");
            answer.number(byte);
        }
        SqlRefused::NoTable => answer.add("2"),
        SqlRefused::NoColumn => answer.add("3"),
        SqlRefused::WrongType => answer.add("4"),
        SqlRefused::Limit => answer.add("5"),
        SqlRefused::Memory => return Err(Stop::Memory),
    }
    Ok(())
}
