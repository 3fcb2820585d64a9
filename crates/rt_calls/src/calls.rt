//! The calls, by the first word of their lines.
use crate::session::Session;
use rt_call_cluster::{TableTexts, ideal, machine, meta, mode, replica, replicas, store};
use rt_call_nodes::{
    consumer, decide, entry, fetch, plan, rebalance, retire, upsert, upsert_config,
};
use rt_call_queries::{merge, query, scan, skips, sql, tree};
use rt_call_replies::{check, failure, handle, limits, rehearse, server, status};
use rt_call_schemas::{Tables, columns, message, row, schema, settings, table};
use rt_call_segments::{rows, sealed, segment};
use rt_call_storage::{
    clock, deep, dict, docset, format, gate, get, minute, name, pack, postings, sink, source,
    stream, unpack, width,
};
use rt_call_words::{Answer, Stop, Words};
use std::alloc::Global;

/// Makes the call of a word.
pub(crate) fn make_call(
    alloc: Global,
    session: &mut Session,
    word: &str,
    words: &mut Words,
    answer: &mut Answer,
) -> Result<(), Stop> {
    let tables = &mut session.tables;
    match word {
        "schema" => schema(alloc, tables, words, answer),
        "columns" => columns(alloc, tables, words, answer),
        "table" => table(alloc, tables, words, answer),
        "settings" => settings(alloc, tables, words, answer),
        "row" => row(alloc, tables, words, answer),
        "message" => message(alloc, tables, words, answer),
        _ => call_query(alloc, session, word, words, answer),
    }
}

fn call_query(
    alloc: Global,
    session: &mut Session,
    word: &str,
    words: &mut Words,
    answer: &mut Answer,
) -> Result<(), Stop> {
    let tables = &mut session.tables;
    let segments = &mut session.segments;
    let asked = &mut session.asked;
    match word {
        "sql" => sql(alloc, tables, asked, words, answer),
        "query" => query(alloc, tables, asked, words, answer),
        "tree" => tree(alloc, tables, words, answer),
        "segment" => segment(alloc, segments, words, answer),
        "sealed" => sealed(alloc, tables, segments, words, answer),
        "rows" => rows(alloc, tables, segments, words, answer),
        "scan" => scan(alloc, tables, segments, asked, words, answer),
        "merge" => merge(alloc, tables, segments, asked, words, answer),
        "skips" => skips(alloc, tables, segments, asked, words, answer),
        _ => call_cluster(alloc, session, word, words, answer),
    }
}

fn call_cluster(
    alloc: Global,
    session: &mut Session,
    word: &str,
    words: &mut Words,
    answer: &mut Answer,
) -> Result<(), Stop> {
    let texts = texts_of(&session.tables);
    match word {
        "machine" => machine(alloc, words, answer),
        "ideal" => ideal(alloc, words, answer),
        "mode" => mode(alloc, words, answer),
        "meta" => meta(alloc, texts, words, answer),
        "replicas" => replicas(alloc, words, answer),
        "replica" => replica(words, answer),
        "store" => store(alloc, &mut session.store, texts, words, answer),
        "deep" => deep(alloc, &mut session.deep, words, answer),
        "stream" => stream(alloc, &mut session.stream, words, answer),
        _ => call_node(alloc, session, word, words, answer),
    }
}

fn texts_of(tables: &Tables) -> TableTexts<'_> {
    TableTexts {
        schema: tables.schema_text(),
        table: tables.table_text(),
    }
}

fn call_node(
    alloc: Global,
    session: &mut Session,
    word: &str,
    words: &mut Words,
    answer: &mut Answer,
) -> Result<(), Stop> {
    let texts = texts_of(&session.tables);
    match word {
        "decide" => decide(alloc, words, answer),
        "retire" => retire(alloc, words, answer),
        "plan" => plan(alloc, words, answer),
        "rebalance" => rebalance(alloc, words, answer),
        "upsert" => upsert(alloc, words, answer),
        "upsert_config" => upsert_config(alloc, texts, words, answer),
        "consumer" => consumer(alloc, &mut session.stream, texts, words, answer),
        "fetch" => fetch(alloc, &mut session.deep, words, answer),
        "entry" => entry(alloc, &mut session.deep, &session.tables, words, answer),
        _ => call_reply(alloc, session, word, words, answer),
    }
}

fn call_reply(
    alloc: Global,
    session: &mut Session,
    word: &str,
    words: &mut Words,
    answer: &mut Answer,
) -> Result<(), Stop> {
    let texts = texts_of(&session.tables);
    let store = &mut session.store;
    let deep = &mut session.deep;
    match word {
        "limits" => limits(words, answer),
        "status" => status(alloc, words, answer),
        "failure" => failure(alloc, words, answer),
        "handle" => handle(alloc, store, deep, texts, words, answer),
        "check" => check(alloc, deep, texts, words, answer),
        "server" => server(alloc, &mut session.stream, texts, words, answer),
        "rehearse" => rehearse(alloc, words, answer),
        _ => call_tool(alloc, word, words, answer),
    }
}

fn call_tool(
    alloc: Global,
    word: &str,
    words: &mut Words,
    answer: &mut Answer,
) -> Result<(), Stop> {
    match word {
        "name" => name(alloc, words, answer),
        "format" => format(alloc, words, answer),
        "minute" => minute(words, answer),
        "dict" => dict(alloc, words, answer),
        "width" => width(words, answer),
        "pack" => pack(alloc, words, answer),
        "get" => get(alloc, words, answer),
        "unpack" => unpack(alloc, words, answer),
        "postings" => postings(alloc, words, answer),
        "docset" => docset(alloc, words, answer),
        "source" => source(alloc, words, answer),
        "sink" => sink(alloc, words, answer),
        "clock" => clock(words, answer),
        "gate" => gate(words, answer),
        _ => Err(Stop::BadLine),
    }
}
