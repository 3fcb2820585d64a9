ghost use Rattle.std.specs.Prelude.{◌≡◌, IfOk};
ghost use Rattle.rt_live_end.specs.Ends.{end_after, end_by, end_in, ends_in, node_end, status_end};
ghost use Rattle.rt_model.specs.Chain.{is_node_of};

use rt_base::{Offset, Partition};
use rt_model::{Key, Node, Seen, Status};
use std::alloc::{AllocError, Global};

/// The end up to which each partition is committed, by the whole history of a store: the greatest end of its Done segments, or
/// 0. Fails only where memory is refused.
pub(crate) fn ends_of(
    alloc: Global,
    partitions: u32,
    history: &[Seen],
) -> Result<Vec<Offset>, AllocError>
    ensures { IfOk result (λ ends. ends.items ≡ ends_in partitions history.now) }
{
    let mut ends = Vec::new(alloc);
    for partition in 0..partitions {
        ends.push(end_of(history, Partition(partition)))?;
    }
    Ok(ends)
}

// The end up to which a partition is committed.
fn end_of(history: &[Seen], partition: Partition) -> Offset
    ensures { result ≡ end_in history.now partition.0 }
{
    let mut end = 0;
    for write in history {
        end = end_after(partition, end, write);
    }
    Offset(end)
}

// The end after one write more.
fn end_after(partition: Partition, end: u64, write: &Seen) -> u64
    ensures { result ≡ end_after partition end write.now }
{
    end.max(end_by(partition, write))
}

// The end that a write commits of a partition, or 0.
fn end_by(partition: Partition, write: &Seen) -> u64
    ensures { result ≡ end_by partition write.now }
{
    if is_node_of(partition, write.key) {
        node_end(&write.node)
    } else {
        0
    }
}

fn is_node_of(partition: Partition, key: Key) -> bool
    ensures { result ≡ is_node_of partition key }
{
    match key {
        Key::Meta(of, _) => of == partition,
        Key::Ideal => false,
        Key::Boot(_) => false,
    }
}

fn node_end(node: &Node) -> u64
    ensures { result ≡ node_end node.now }
{
    match node {
        Node::Meta(meta) => status_end(&meta.status),
        Node::Ideal(_) => 0,
        Node::Boot => 0,
        Node::Gone => 0,
    }
}

fn status_end(status: &Status) -> u64
    ensures { result ≡ status_end status.now }
{
    match status {
        Status::InProgress => 0,
        Status::Done(commit) => commit.end.0,
        Status::Abandoned => 0,
    }
}
