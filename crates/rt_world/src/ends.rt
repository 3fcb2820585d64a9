//! How far a partition is committed.
ghost use Rattle.std.specs.Prelude.{◌≡◌, ◌≤◌};
ghost use Rattle.rt_model.specs.History.{value_of};
ghost use Rattle.rt_model.specs.Metadata.{metadata_of, node_key, past_key, sequences_of};
ghost use Rattle.rt_world.specs.Ends.{done_by, done_end, done_in};
ghost use Rattle.rt_world.specs.Reading.{last_end};

use rt_base::{Offset, Partition, Sequence};
use rt_model::{Key, Node, Seen, Status};
use rt_store::MemoryStore;

/// The end of the last Done node of a partition, or 0. Takes no memory.
#[tactic(auto, using(crate::proofs::DoneEnds::done_last, crate::proofs::DoneEnds::done_before))]
pub(crate) fn end_of(store: &MemoryStore, partition: Partition) -> Offset
    ensures { result ≡ last_end (record { 0 = 0 }) (metadata_of store.now.writes partition) }
{
    let mut left = sequences_of(partition, store.history());
    while left > 0 {
        left -= 1;
        if let Some(end) = done_at(store, partition, Sequence(left as u32)) {
            return end;
        }
    }
    Offset(0)
}

// One past the highest sequence of a partition that was ever written, or 0.
fn sequences_of(partition: Partition, writes: &[Seen]) -> u64
    ensures past { result ≡ sequences_of writes.now partition }
    ensures small { result ≤ 4294967296 }
{
    let mut past: u64 = 0;
    for write in writes {
        past = past.max(past_key(partition, write.key));
    }
    past
}

fn past_key(partition: Partition, key: Key) -> u64
    ensures past { result ≡ past_key partition key }
    ensures small { result ≤ 4294967296 }
{
    match key {
        Key::Meta(other, sequence) => {
            if other == partition {
                u64::from(sequence.0) + 1
            } else {
                0
            }
        }
        Key::Ideal => 0,
        Key::Boot(_) => 0,
    }
}

// The end of a node that is there and Done.
fn done_at(store: &MemoryStore, partition: Partition, sequence: Sequence) -> Option<Offset>
    ensures { result ≡ done_in (value_of store.now.writes (node_key partition sequence.0)) }
{
    match store.value(Key::Meta(partition, sequence)) {
        Some(seen) => done_by(&seen.node),
        None => None,
    }
}

fn done_by(node: &Node) -> Option<Offset>
    ensures { result ≡ done_by node.now }
{
    match node {
        Node::Meta(meta) => done_end(&meta.status),
        Node::Ideal(_) => None,
        Node::Boot => None,
        Node::Gone => None,
    }
}

fn done_end(status: &Status) -> Option<Offset>
    ensures { result ≡ done_end status.now }
{
    match status {
        Status::Done(commit) => Some(commit.end),
        Status::InProgress => None,
        Status::Abandoned => None,
    }
}
