use crate::creations::{create, create_after, set};
use crate::setups::{KnownSetup, TableTexts};
use crate::store_words::{key_in, seen_in, write_key, write_node};
use rt_base::Partition;
use rt_call_words::{Answer, Stop, Words};
use rt_model::{Listed, Seen};
use rt_store::{MemoryStore, Store, StoreRefused};
use std::alloc::Global;

/// `store ..`: calls of the store in memory. A store is made for the table of the texts.
pub fn store(
    alloc: Global,
    store: &mut Option<MemoryStore>,
    texts: TableTexts,
    words: &mut Words,
    answer: &mut Answer,
) -> Result<(), Stop> {
    let name = words.word();
    if name == "make" {
        *store = Some(make(alloc, texts, words, answer)?);
        return Ok(());
    }
    match store {
        Some(store) => call_store(alloc, store, name, words, answer),
        None => Err(Stop::Refused),
    }
}

// `make SERVERS CONTROLLERS PARTITIONS START`: the number of writes.
fn make(
    alloc: Global,
    texts: TableTexts,
    words: &mut Words,
    answer: &mut Answer,
) -> Result<MemoryStore, Stop> {
    let known = KnownSetup::read(alloc, texts, words)?;
    let store = MemoryStore::make(alloc, &known.setup)?;
    answer.number(store.history().len() as u64);
    Ok(store)
}

fn call_store(
    alloc: Global,
    store: &mut MemoryStore,
    name: &str,
    words: &mut Words,
    answer: &mut Answer,
) -> Result<(), Stop> {
    match name {
        "history" => history(alloc, store, words, answer),
        "read" => read(alloc, store, words, answer),
        "list" => list(alloc, store, words, answer),
        "bump" => bump(alloc, store, words, answer),
        "fault" => fault(store, words, answer),
        _ => write(alloc, store, name, words, answer),
    }
}

fn write(
    alloc: Global,
    store: &mut MemoryStore,
    name: &str,
    words: &mut Words,
    answer: &mut Answer,
) -> Result<(), Stop> {
    match name {
        "create" => create(alloc, store, words, answer),
        "set" => set(alloc, store, words, answer),
        "delete" => delete(alloc, store, words, answer),
        "create_after" => create_after(alloc, store, words, answer),
        _ => Err(Stop::BadLine),
    }
}

/// Adds why the store refuses a call.
pub(crate) fn refuse(refused: StoreRefused, answer: &mut Answer) -> Result<(), Stop> {
    match refused {
        StoreRefused::NoNode => answer.add("nonode"),
        StoreRefused::Exists { found } => {
            answer.add("exists ");
            answer.number(found);
        }
        StoreRefused::VersionChanged { expected, found } => {
            answer.add("changed ");
            answer.number(expected);
            answer.add(" ");
            answer.number(found);
        }
        StoreRefused::Failed => answer.add("failed"),
        StoreRefused::Memory => return Err(Stop::Memory),
    }
    Ok(())
}

// `history`: `KEY@VERSION NODE`, with `; ` between them.
fn history(
    alloc: Global,
    store: &MemoryStore,
    words: &mut Words,
    answer: &mut Answer,
) -> Result<(), Stop> {
    words.ended()?;
    for (place, seen) in store.history().iter().enumerate() {
        answer.part(place, "; ");
        write_key(seen.key, answer);
        answer.add("@");
        answer.number(seen.version);
        answer.add(" ");
        write_node(alloc, &seen.node, answer)?;
    }
    Ok(())
}

// `read KEY`: the version and the node.
fn read(
    alloc: Global,
    store: &mut MemoryStore,
    words: &mut Words,
    answer: &mut Answer,
) -> Result<(), Stop> {
    let key = key_in(words.word())?;
    words.ended()?;
    match store.read(alloc, key) {
        Ok(seen) => write_seen(alloc, &seen, answer),
        Err(refused) => refuse(refused, answer),
    }
}

fn write_seen(alloc: Global, seen: &Seen, answer: &mut Answer) -> Result<(), Stop> {
    answer.number(seen.version);
    answer.add(" ");
    write_node(alloc, &seen.node, answer)
}

// `list P`: `Q@VERSION META`, with `; ` between them.
fn list(
    alloc: Global,
    store: &mut MemoryStore,
    words: &mut Words,
    answer: &mut Answer,
) -> Result<(), Stop> {
    let partition = Partition(words.count());
    words.ended()?;
    match store.list(alloc, partition) {
        Ok(nodes) => write_listed(alloc, nodes.as_slice(), answer),
        Err(refused) => refuse(refused, answer),
    }
}

fn write_listed(alloc: Global, nodes: &[Listed], answer: &mut Answer) -> Result<(), Stop> {
    if nodes.is_empty() {
        answer.add("-");
    }
    for (place, node) in nodes.iter().enumerate() {
        answer.part(place, "; ");
        answer.count(node.sequence.0);
        answer.add("@");
        answer.number(node.seen.version);
        answer.add(" ");
        answer.add(rt_meta::text(alloc, &node.seen.meta)?.as_str());
    }
    Ok(())
}

// `bump sK`: the version.
fn bump(
    alloc: Global,
    store: &mut MemoryStore,
    words: &mut Words,
    answer: &mut Answer,
) -> Result<(), Stop> {
    let instance = words.instance_until(' ');
    words.ended()?;
    match store.bump(alloc, instance) {
        Ok(version) => {
            answer.number(version);
            Ok(())
        }
        Err(refused) => refuse(refused, answer),
    }
}

// `fault lost` or `fault kept`
fn fault(store: &mut MemoryStore, words: &mut Words, answer: &mut Answer) -> Result<(), Stop> {
    let is_kept = words.is_second("lost", "kept");
    words.ended()?;
    store.plan_fault(is_kept)?;
    answer.add("ok");
    Ok(())
}

// `delete KEY@VERSION`
fn delete(
    alloc: Global,
    store: &mut MemoryStore,
    words: &mut Words,
    answer: &mut Answer,
) -> Result<(), Stop> {
    let seen = seen_in(words.word())?;
    words.ended()?;
    match store.delete(alloc, &seen) {
        Ok(()) => {
            answer.add("ok");
            Ok(())
        }
        Err(refused) => refuse(refused, answer),
    }
}
