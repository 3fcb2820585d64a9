//! Words of a partition's metadata and of its segments.
use rt_base::{Partition, Sequence};
use rt_call_cluster::meta_in;
use rt_call_words::{Answer, Stop, Words};
use rt_lists::Items;
use rt_model::{Listed, SeenMeta};
use std::alloc::Global;

/// `Q:START:WRITTEN:STATUS ..`, and `:END` behind `DONE`, or `-`: the metadata of a partition, each at version 0.
pub(crate) fn listed_in(alloc: Global, list: &str) -> Result<Items<Listed>, Stop> {
    let mut nodes = Items::new(alloc);
    if list == "-" {
        return Ok(nodes);
    }
    for word in list.split(' ') {
        nodes.push(node_in(alloc, &mut Words::of(word))?)?;
    }
    Ok(nodes)
}

fn node_in(alloc: Global, words: &mut Words) -> Result<Listed, Stop> {
    let sequence = Sequence(words.count_until(':'));
    let meta = meta_in(alloc, words)?;
    Ok(Listed {
        sequence,
        seen: SeenMeta { version: 0, meta },
    })
}

/// Adds `P/Q`.
pub fn write_segment(partition: Partition, sequence: Sequence, answer: &mut Answer) {
    answer.count(partition.0);
    answer.add("/");
    answer.count(sequence.0);
}
