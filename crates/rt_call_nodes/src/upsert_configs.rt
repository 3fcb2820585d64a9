use rt_call_cluster::TableTexts;
use rt_call_words::{Answer, Stop, Words};
use rt_schema::{SchemaRefused, read_schema};
use rt_upconf::{UpsertConfig, UpsertRefused, read_upsert};
use std::alloc::Global;

/// `upsert_config TEXT`: the upsert settings of a table's text over the last schema, as `ok KEYS COMPARE` with commas in
/// KEYS, or `none`, or the refusal's number.
pub fn upsert_config(
    alloc: Global,
    texts: TableTexts,
    words: &mut Words,
    answer: &mut Answer,
) -> Result<(), Stop> {
    let bytes = words.message(alloc);
    words.ended()?;
    match str::from_utf8(bytes.as_slice()) {
        Ok(table) => write_config_of(alloc, texts.schema, table, answer),
        Err(_) => Err(Stop::BadLine),
    }
}

fn write_config_of(
    alloc: Global,
    schema_text: &str,
    table_text: &str,
    answer: &mut Answer,
) -> Result<(), Stop> {
    let schema = match read_schema(alloc, schema_text) {
        Ok(schema) => schema,
        Err(SchemaRefused::Memory) => return Err(Stop::Memory),
        Err(_) => return Err(Stop::Refused),
    };
    match read_upsert(alloc, schema_text, table_text, &schema) {
        Ok(Some(config)) => write_config(&config, answer),
        Ok(None) => answer.add("none"),
        Err(refused) => return refuse(refused, answer),
    }
    Ok(())
}

fn write_config(config: &UpsertConfig, answer: &mut Answer) {
    answer.add("ok ");
    for (place, key) in config.keys.as_slice().iter().enumerate() {
        answer.part(place, ",");
        answer.add(key.as_str());
    }
    answer.add(" ");
    answer.add(config.compare.as_str());
}

fn refuse(refused: UpsertRefused, answer: &mut Answer) -> Result<(), Stop> {
    match refused.number() {
        Some(number) => {
            answer.count(number);
            Ok(())
        }
        None => Err(Stop::Memory),
    }
}
