//! The calls of the store that write a node.
use crate::store_words::{key_in, node_in, seen_in};
use crate::stores::refuse;
use rt_call_words::{Answer, Stop, Words};
use rt_store::{MemoryStore, Store};
use std::alloc::Global;

/// `create KEY NODE`
pub(crate) fn create(
    alloc: Global,
    store: &mut MemoryStore,
    words: &mut Words,
    answer: &mut Answer,
) -> Result<(), Stop> {
    let key = key_in(words.word())?;
    let node = node_in(alloc, words)?;
    match store.create(alloc, key, &node) {
        Ok(()) => {
            answer.add("ok");
            Ok(())
        }
        Err(refused) => refuse(refused, answer),
    }
}

/// `set KEY@VERSION NODE`: the new version.
pub(crate) fn set(
    alloc: Global,
    store: &mut MemoryStore,
    words: &mut Words,
    answer: &mut Answer,
) -> Result<(), Stop> {
    let seen = seen_in(words.word())?;
    let node = node_in(alloc, words)?;
    match store.compare_and_set(alloc, &seen, &node) {
        Ok(version) => {
            answer.number(version);
            Ok(())
        }
        Err(refused) => refuse(refused, answer),
    }
}

/// `create_after KEY@VERSION KEY NODE`
pub(crate) fn create_after(
    alloc: Global,
    store: &mut MemoryStore,
    words: &mut Words,
    answer: &mut Answer,
) -> Result<(), Stop> {
    let prior = seen_in(words.word())?;
    let key = key_in(words.word())?;
    let node = node_in(alloc, words)?;
    match store.create_after(alloc, key, &node, &prior) {
        Ok(()) => {
            answer.add("ok");
            Ok(())
        }
        Err(refused) => refuse(refused, answer),
    }
}
