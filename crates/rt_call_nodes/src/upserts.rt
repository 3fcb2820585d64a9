use crate::row_words::{place_in, row_in};
use crate::upsert_table::UpsertTable;
use rt_base::Sequence;
use rt_call_words::{Answer, Stop, Words};
use std::alloc::Global;

/// `upsert COLUMNS`, and as further parts `KEYS COMPARE` and calls with `; ` between them: each call's answer, then the
/// latest places.
pub fn upsert(alloc: Global, words: &mut Words, answer: &mut Answer) -> Result<(), Stop> {
    let columns = words.until('\t');
    let keys = words.word();
    let compare = words.until('\t');
    let calls = words.rest();
    words.ended()?;
    let schema_text = schema_text(alloc, columns, keys)?;
    let table_text = table_text(alloc, compare)?;
    let mut table = UpsertTable::make(alloc, schema_text.as_str(), table_text.as_str())?;
    for call in calls.split("; ") {
        call_table(alloc, &mut table, &mut Words::of(call), answer)?;
        answer.add("; ");
    }
    table.write_latest(answer);
    Ok(())
}

// A schema of columns `NAME:TYPE ..`, all of them dimensions, and of keys with commas between them.
fn schema_text(alloc: Global, columns: &str, keys: &str) -> Result<String, Stop> {
    let mut text = Answer::new(alloc);
    text.add(r#"{"schemaName":"t","dimensionFieldSpecs":["#);
    for (place, column) in columns.split(' ').enumerate() {
        text.part(place, ",");
        add_column(alloc, &mut Words::of(column), &mut text)?;
    }
    text.add(r#"],"primaryKeyColumns":["#);
    for (place, key) in keys.split(',').enumerate() {
        text.part(place, ",");
        text.json(alloc, key);
    }
    text.add("]}");
    text.into_text()
}

// `NAME:TYPE`
fn add_column(alloc: Global, words: &mut Words, text: &mut Answer) -> Result<(), Stop> {
    let name = words.until(':');
    let data_type = words.rest();
    words.ended()?;
    text.add(r#"{"name":"#);
    text.json(alloc, name);
    text.add(r#","dataType":"#);
    text.json(alloc, data_type);
    text.add("}");
    Ok(())
}

fn table_text(alloc: Global, compare: &str) -> Result<String, Stop> {
    let mut text = Answer::new(alloc);
    text.add(r#"{"upsertConfig":{"mode":"FULL","comparisonColumns":["#);
    text.json(alloc, compare);
    text.add("]}}");
    text.into_text()
}

fn call_table(
    alloc: Global,
    table: &mut UpsertTable,
    words: &mut Words,
    answer: &mut Answer,
) -> Result<(), Stop> {
    match words.word() {
        "add" => add(alloc, table, words, answer),
        "take_out" => take_out(table, words, answer),
        _ => Err(Stop::BadLine),
    }
}

// `add Q/ROW VALUES`
fn add(
    alloc: Global,
    table: &mut UpsertTable,
    words: &mut Words,
    answer: &mut Answer,
) -> Result<(), Stop> {
    let place = place_in(words);
    let row = row_in(alloc, table.schema.columns.as_slice(), words)?;
    table.add(alloc, place, &row, answer)
}

// `take_out Q FROM`: the number of rows.
fn take_out(table: &mut UpsertTable, words: &mut Words, answer: &mut Answer) -> Result<(), Stop> {
    let sequence = Sequence(words.count());
    let from = words.count();
    words.ended()?;
    answer.count(table.take_out(sequence, from));
    Ok(())
}
