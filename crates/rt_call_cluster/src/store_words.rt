//! Words of the store: keys, nodes and versions.
use crate::cluster_words::{meta_in, state_in};
use rt_base::Instance;
use rt_call_words::{Answer, Stop, Words};
use rt_model::{Key, Node, Seen};
use std::alloc::Global;

/// `meta/P/Q`, `ideal` or `boot/K`
pub(crate) fn key_in(word: &str) -> Result<Key, Stop> {
    let mut words = Words::of(word);
    let key = match words.until('/') {
        "ideal" => Key::Ideal,
        "boot" => Key::Boot(Instance(words.count())),
        "meta" => {
            let segment = words.segment_until(' ');
            Key::Meta(segment.partition, segment.sequence)
        }
        _ => return Err(Stop::BadLine),
    };
    words.ended()?;
    Ok(key)
}

/// A node as it was read, `KEY@VERSION`. Of what it says the store asks its key and its version alone.
pub(crate) fn seen_in(word: &str) -> Result<Seen, Stop> {
    let mut words = Words::of(word);
    let key = key_in(words.until('@'))?;
    let version = words.number();
    words.ended()?;
    Ok(Seen {
        key,
        version,
        node: Node::Boot,
    })
}

/// `boot`, `ideal ENTRIES` or `meta START:WRITTEN:STATUS`, up to the end.
pub(crate) fn node_in(alloc: Global, words: &mut Words) -> Result<Node, Stop> {
    match words.word() {
        "boot" => {
            words.ended()?;
            Ok(Node::Boot)
        }
        "ideal" => {
            let list = words.rest();
            words.ended()?;
            Ok(Node::Ideal(state_in(alloc, list)?))
        }
        "meta" => Ok(Node::Meta(meta_in(alloc, words)?)),
        _ => Err(Stop::BadLine),
    }
}

/// Adds a key.
pub(crate) fn write_key(key: Key, answer: &mut Answer) {
    match key {
        Key::Meta(partition, sequence) => {
            answer.add("meta/");
            answer.count(partition.0);
            answer.add("/");
            answer.count(sequence.0);
        }
        Key::Ideal => answer.add("ideal"),
        Key::Boot(instance) => {
            answer.add("boot/");
            answer.count(instance.0);
        }
    }
}

/// Adds a node.
pub(crate) fn write_node(alloc: Global, node: &Node, answer: &mut Answer) -> Result<(), Stop> {
    match node {
        Node::Meta(meta) => answer.add(rt_meta::text(alloc, meta)?.as_str()),
        Node::Ideal(state) => answer.add(rt_ideal::text(alloc, state)?.as_str()),
        Node::Boot => answer.add("-"),
        Node::Gone => answer.add("gone"),
    }
    Ok(())
}
