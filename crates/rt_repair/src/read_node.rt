ghost use Rattle.std.specs.Prelude.{◌≡◌};
ghost use Rattle.rt_repair.specs.ReadNode.{read_node, last_node, lowest_node, last_follows, follows_done, is_done};

use rt_base::{Partition, Sequence};
use rt_lists::Items;
use rt_model::{Key, Listed, Node, Seen, Status};

/// A segment's node as it was listed: the write that it is, from which a store's call can start.
#[derive(Drop, PartialEq, Eq)]
pub struct ReadNode {
    pub sequence: Sequence,
    pub seen: Seen,
}

/// A listed node of a partition as the write that it is.
fn read_node(partition: Partition, listed: Listed) -> ReadNode
    ensures { result ≡ read_node partition listed }
{
    let Listed { sequence, seen } = listed;
    ReadNode {
        sequence,
        seen: Seen {
            key: Key::Meta(partition, sequence),
            version: seen.version,
            node: Node::Meta(seen.meta),
        },
    }
}

/// The last of the listed nodes, and whether the one before it is Done.
#[tactic(auto, using(crate::proofs::Lists::last_of_pushed))]
pub(crate) fn last_node(partition: Partition, nodes: Items<Listed>) -> (Option<ReadNode>, bool)
    ensures { result ≡ (last_node partition nodes, last_follows nodes) }
{
    let follows_done = last_follows(nodes.as_slice());
    let mut nodes = nodes;
    match nodes.pop() {
        Some(listed) => (Some(read_node(partition, listed)), follows_done),
        None => (None, follows_done),
    }
}

/// Whether the segment before the last one is Done.
#[tactic(auto, using(crate::proofs::Lists::last_is))]
fn last_follows(nodes: &[Listed]) -> bool
    ensures { result ≡ last_follows nodes.now }
{
    match nodes.last() {
        Some(last) => follows_done(nodes, last.sequence),
        None => false,
    }
}

/// Whether the segment before this one is Done.
fn follows_done(nodes: &[Listed], sequence: Sequence) -> bool
    ensures { result ≡ follows_done nodes.now sequence }
{
    for node in nodes {
        if u64::from(node.sequence.0) + 1 == u64::from(sequence.0)
            && is_done(&node.seen.meta.status)
        {
            return true;
        }
    }
    false
}

fn is_done(status: &Status) -> bool
    ensures { result ≡ is_done status.now }
{
    match status {
        Status::InProgress => false,
        Status::Done(_) => true,
        Status::Abandoned => false,
    }
}

/// The lowest of the listed nodes, where it isn't the last.
pub(crate) fn lowest_node(partition: Partition, nodes: Items<Listed>) -> Option<ReadNode>
    ensures { result ≡ lowest_node partition nodes }
{
    if nodes.len() < 2 {
        return None;
    }
    let lowest = nodes.into_vec().swap_remove(0);
    Some(read_node(partition, lowest))
}
