use crate::committed::{Committed, write_headers};
use crate::pieces::{piece_in, write_served};
use crate::replicas::state_name;
use rt_call_schemas::Tables;
use rt_call_words::{Answer, Segment, Stop, Words};
use rt_deep::MemoryDeep;
use rt_entry::{Entry, ServerRefused};
use rt_model::SeenMeta;
use rt_schema::Schema;
use rt_segment::encode;
use std::alloc::Global;

/// `entry P/Q START END PATH DIGEST ROWS`, a tab, and calls with `; ` between them: what a server has of a committed
/// segment whose file is wanted; each call's answer, and the state after it.
pub fn entry(
    alloc: Global,
    deep: &mut MemoryDeep,
    tables: &Tables,
    words: &mut Words,
    answer: &mut Answer,
) -> Result<(), Stop> {
    let mut named = Words::of(words.until('\t'));
    let calls = words.rest();
    words.ended()?;
    let Committed { segment, meta } = Committed::read(alloc, &mut named)?;
    let schema = &tables.schema()?.schema;
    let mut entry = Entry::wanting(SeenMeta { version: 0, meta });
    call_each(alloc, &mut entry, segment, schema, deep, calls, answer)
}

fn call_each(
    alloc: Global,
    entry: &mut Entry,
    segment: Segment,
    schema: &Schema,
    deep: &mut MemoryDeep,
    calls: &str,
    answer: &mut Answer,
) -> Result<(), Stop> {
    for (place, call) in calls.split("; ").enumerate() {
        answer.part(place, "; ");
        call_entry(alloc, entry, segment, schema, deep, call, answer)?;
        answer.add(" -> ");
        answer.add(state_name(entry.state()));
    }
    Ok(())
}

fn call_entry(
    alloc: Global,
    entry: &mut Entry,
    segment: Segment,
    schema: &Schema,
    deep: &mut MemoryDeep,
    call: &str,
    answer: &mut Answer,
) -> Result<(), Stop> {
    match call {
        "download" => download(alloc, entry, segment, schema, deep, answer),
        "wants" => {
            answer.truth(entry.wants());
            Ok(())
        }
        "file" => write_file(alloc, entry, answer),
        _ => serve(alloc, entry, segment, &mut Words::of(call), answer),
    }
}

// `download`: the number of rows of the file that was loaded.
fn download(
    alloc: Global,
    entry: &mut Entry,
    segment: Segment,
    schema: &Schema,
    deep: &mut MemoryDeep,
    answer: &mut Answer,
) -> Result<(), Stop> {
    match entry.load(alloc, schema, segment.partition, segment.sequence, deep) {
        Ok(rows) => {
            answer.add("ok ");
            answer.count(rows);
            Ok(())
        }
        Err(refused) => refuse(alloc, refused, answer),
    }
}

fn refuse(alloc: Global, refused: ServerRefused, answer: &mut Answer) -> Result<(), Stop> {
    match refused {
        ServerRefused::NotDue => answer.add("notdue"),
        ServerRefused::StoreFault => answer.add("failed"),
        ServerRefused::BadFile { wanted, found } => {
            answer.add("badfile ");
            write_headers(alloc, wanted, found, answer);
        }
        ServerRefused::Memory => return Err(Stop::Memory),
    }
    Ok(())
}

// `serve START END`: the range and the number of rows of a piece, or the end that is held.
fn serve(
    alloc: Global,
    entry: &Entry,
    segment: Segment,
    words: &mut Words,
    answer: &mut Answer,
) -> Result<(), Stop> {
    if words.word() != "serve" {
        return Err(Stop::BadLine);
    }
    let piece = piece_in(segment, words)?;
    write_served(entry.rows(alloc, piece), answer)
}

// `file`: the bytes of the file that is served, or `none`.
fn write_file(alloc: Global, entry: &Entry, answer: &mut Answer) -> Result<(), Stop> {
    match entry.sealed() {
        Some(sealed) => {
            let bytes = encode(alloc, sealed)?;
            answer.bytes(alloc, bytes.as_slice());
        }
        None => answer.add("none"),
    }
    Ok(())
}
