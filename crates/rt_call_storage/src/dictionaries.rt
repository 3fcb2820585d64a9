use crate::key_word::KeyWord;
use rt_call_words::{Answer, Stop, Words};
use rt_dict::{Dict, Edge};
use rt_lists::{Items, Text};
use std::alloc::Global;

/// `dict KIND KEYS`, and behind a tab calls with `; ` between them: the keys of the dictionary, then each call's answer.
pub fn dict(alloc: Global, words: &mut Words, answer: &mut Answer) -> Result<(), Stop> {
    match words.word() {
        "int" => dict_of::<i32>(alloc, words, answer),
        "long" => dict_of::<i64>(alloc, words, answer),
        "bool" => dict_of::<bool>(alloc, words, answer),
        "text" => dict_of::<Text>(alloc, words, answer),
        _ => Err(Stop::BadLine),
    }
}

fn dict_of<K: KeyWord>(alloc: Global, words: &mut Words, answer: &mut Answer) -> Result<(), Stop> {
    let list = words.until('\t');
    let calls = words.more();
    words.ended()?;
    let mut dict = made_of::<K>(alloc, list)?;
    write_keys(alloc, &dict, answer);
    if let Some(calls) = calls {
        for call in calls.split("; ") {
            answer.add("; ");
            call_dict(alloc, &mut dict, &mut Words::of(call), answer)?;
        }
    }
    Ok(())
}

fn made_of<K: KeyWord>(alloc: Global, list: &str) -> Result<Dict<K>, Stop> {
    let keys = keys_in::<K>(alloc, list)?;
    if keys.len() >= 4_294_967_296 {
        return Err(Stop::Refused);
    }
    Ok(Dict::build(alloc, keys.as_slice())?)
}

fn keys_in<K: KeyWord>(alloc: Global, list: &str) -> Result<Items<K>, Stop> {
    let mut keys = Items::new(alloc);
    if list == "-" {
        return Ok(keys);
    }
    let mut words = Words::of(list);
    for _ in 0..list.len() {
        keys.push(K::read(alloc, &mut words))?;
        if words.ended().is_ok() {
            break;
        }
    }
    words.ended()?;
    Ok(keys)
}

fn write_keys<K: KeyWord>(alloc: Global, dict: &Dict<K>, answer: &mut Answer) {
    if dict.len() == 0 {
        answer.add("-");
    }
    for id in 0..dict.len() {
        if id > 0 {
            answer.add(" ");
        }
        dict.value(id).write(alloc, answer);
    }
}

fn call_dict<K: KeyWord>(
    alloc: Global,
    dict: &mut Dict<K>,
    words: &mut Words,
    answer: &mut Answer,
) -> Result<(), Stop> {
    match words.word() {
        "copy" => copy(alloc, dict, words, answer),
        "id_of" => id_of(alloc, dict, words, answer),
        "range" => range(alloc, dict, words, answer),
        "push" => push(alloc, dict, words, answer),
        _ => Err(Stop::BadLine),
    }
}

// `copy`
fn copy<K: KeyWord>(
    alloc: Global,
    dict: &Dict<K>,
    words: &mut Words,
    answer: &mut Answer,
) -> Result<(), Stop> {
    words.ended()?;
    let copy = dict.copy(alloc)?;
    write_keys(alloc, &copy, answer);
    Ok(())
}

// `id_of KEY`
fn id_of<K: KeyWord>(
    alloc: Global,
    dict: &Dict<K>,
    words: &mut Words,
    answer: &mut Answer,
) -> Result<(), Stop> {
    let key = K::read(alloc, words);
    words.ended()?;
    match dict.id_of(&key) {
        Some(id) => answer.count(id),
        None => answer.add("none"),
    }
    Ok(())
}

// `range EDGE EDGE`
fn range<K: KeyWord>(
    alloc: Global,
    dict: &Dict<K>,
    words: &mut Words,
    answer: &mut Answer,
) -> Result<(), Stop> {
    let low = edge_in::<K>(alloc, words)?;
    let high = edge_in::<K>(alloc, words)?;
    words.ended()?;
    let (start, end) = dict.range_ids(&low, &high);
    answer.count(start);
    answer.add(" ");
    answer.count(end);
    Ok(())
}

// `open`, `at KEY` or `past KEY`
fn edge_in<K: KeyWord>(alloc: Global, words: &mut Words) -> Result<Edge<K>, Stop> {
    match words.word() {
        "open" => Ok(Edge::Open),
        "at" => Ok(Edge::At(K::read(alloc, words))),
        "past" => Ok(Edge::Past(K::read(alloc, words))),
        _ => Err(Stop::BadLine),
    }
}

// `push KEY`: whether it is added at the end.
fn push<K: KeyWord>(
    alloc: Global,
    dict: &mut Dict<K>,
    words: &mut Words,
    answer: &mut Answer,
) -> Result<(), Stop> {
    let key = K::read(alloc, words);
    words.ended()?;
    if dict.len() >= 4_294_967_295 {
        return Err(Stop::Refused);
    }
    answer.truth(dict.push(key)?);
    Ok(())
}
