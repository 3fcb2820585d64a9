use crate::listed_words::listed_in;
use rt_base::{Moment, Partition, Sequence};
use rt_call_cluster::state_in;
use rt_call_words::{Answer, Stop, Words};
use rt_lists::Items;
use rt_model::{Decision, IdealState, Listed};
use rt_repair::Retiring;
use std::alloc::Global;

/// `decide P NOW GRACE`, metadata and entries as further parts: what a repair of the partition does.
pub fn decide(alloc: Global, words: &mut Words, answer: &mut Answer) -> Result<(), Stop> {
    let read = ReadParts::of(alloc, words)?;
    let nodes = read.nodes.as_slice();
    match rt_repair::decide(nodes, read.partition, &read.ideal, read.now, read.millis) {
        Decision::Nothing => answer.add("nothing"),
        Decision::Create(sequence, start) => {
            write_does("create ", sequence, answer);
            answer.add(" ");
            answer.number(start.0);
        }
        Decision::AddToIdeal(sequence) => write_does("addToIdeal ", sequence, answer),
        Decision::Abandon(sequence) => write_does("abandon ", sequence, answer),
    }
    Ok(())
}

/// `retire P NOW KEEP`, metadata and entries as further parts: what a retirement of the partition does.
pub fn retire(alloc: Global, words: &mut Words, answer: &mut Answer) -> Result<(), Stop> {
    let read = ReadParts::of(alloc, words)?;
    let nodes = read.nodes.as_slice();
    match rt_repair::retire(nodes, read.partition, &read.ideal, read.now, read.millis) {
        Retiring::Nothing => answer.add("nothing"),
        Retiring::Remove(sequence) => write_does("remove ", sequence, answer),
        Retiring::Delete(sequence) => write_does("delete ", sequence, answer),
    }
    Ok(())
}

fn write_does(step: &str, sequence: Sequence, answer: &mut Answer) {
    answer.add(step);
    answer.count(sequence.0);
}

/// What a decision is made of.
#[derive(Drop)]
struct ReadParts {
    partition: Partition,
    now: Moment,
    /// The grace, or how long a segment is kept.
    millis: u64,
    nodes: Items<Listed>,
    ideal: IdealState,
}

impl ReadParts {
    // `P NOW MILLIS`, metadata and entries.
    fn of(alloc: Global, words: &mut Words) -> Result<ReadParts, Stop> {
        let partition = Partition(words.count());
        let now = Moment(words.number());
        let millis = words.number_until('\t');
        let nodes = words.until('\t');
        let entries = words.rest();
        words.ended()?;
        Ok(ReadParts {
            partition,
            now,
            millis,
            nodes: listed_in(alloc, nodes)?,
            ideal: state_in(alloc, entries)?,
        })
    }
}
