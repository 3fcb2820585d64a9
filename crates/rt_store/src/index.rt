ghost use Rattle.std.specs.Prelude.{◌≡◌, ◌+◌, true, false, OnOk, OnErr};
ghost use Rattle.std.specs.BTreeMap.{get};
ghost use Rattle.rt_store.specs.Order.{key_cmp, past_nodes, sequence_in, IsSmall};
ghost use Rattle.rt_store.specs.Index.{IsBlank, IsSame, Notes, IsNext, is_there};

use rt_base::{Partition, Sequence};
use rt_model::{Key, Node};
use std::alloc::{AllocError, Global};
use std::collections::{BTreeMap, BTreeSet};
use std::ops::Bound;

/// The last write of a key: its version, and its place in the list of all writes.
#[derive(Clone, Copy)]
pub(crate) struct Latest {
    pub(crate) version: u64,
    pub(crate) place: usize,
}

/// Where the last write of each key stands, and which keys are there.
#[derive(Drop)]
pub(crate) struct Index {
    /// The last write of each key that was ever written, a deletion among them.
    latest: BTreeMap<Key, Latest>,
    /// The keys whose last write is no deletion, so that a list goes over these alone.
    present: BTreeSet<Key>,
}

impl Index {
    /// The index of no write. It takes no memory yet.
    pub(crate) fn new(alloc: Global) -> Index
        ensures { IsBlank result }
    {
        Index {
            latest: BTreeMap::new(alloc),
            present: BTreeSet::new(alloc),
        }
    }

    /// The last write of a key, where it was ever written.
    pub(crate) fn latest(&self, key: Key) -> Option<Latest>
        ensures { result ≡ get key_cmp self.now.latest key }
    {
        self.latest.get(&key).copied()
    }

    /// Notes a write, a deletion where the node is gone. Where memory runs out, each key is as before.
    pub(crate) fn note(&mut self, key: Key, latest: Latest, node: &Node) -> Result<(), AllocError>
        ensures ok { OnOk result (Notes self.old self.new key latest (is_there node.now)) }
        ensures err { OnErr result (IsSame self.old self.new) }
    {
        match node {
            Node::Gone => self.delete(key, latest),
            _ => self.write(key, latest),
        }
    }

    /// Notes a write that is no deletion.
    fn write(&mut self, key: Key, latest: Latest) -> Result<(), AllocError>
        ensures ok { OnOk result (Notes self.old self.new key latest true) }
        ensures err { OnErr result (IsSame self.old self.new) }
    {
        let is_new = self.present.insert(key)?;
        match self.latest.insert(key, latest) {
            Ok(_) => Ok(()),
            Err(_) => {
                if is_new {
                    self.present.remove(&key);
                }
                Err(AllocError)
            }
        }
    }

    /// Notes a deletion.
    fn delete(&mut self, key: Key, latest: Latest) -> Result<(), AllocError>
        ensures ok { OnOk result (Notes self.old self.new key latest false) }
        ensures err { OnErr result (IsSame self.old self.new) }
    {
        self.latest.insert(key, latest)?;
        self.present.remove(&key);
        Ok(())
    }

    /// The lowest sequence of the metadata nodes of a partition that are there.
    pub(crate) fn first_node(&self, partition: Partition) -> Option<Sequence>
        ensures { IsNext self.now.present partition 0 result }
    {
        let first = Key::Meta(partition, Sequence(0));
        match self.present.range(first..past_nodes(partition)).next() {
            Some(key) => sequence_in(*key),
            None => None,
        }
    }

    /// The lowest sequence above another.
    pub(crate) fn node_after(&self, partition: Partition, sequence: Sequence) -> Option<Sequence>
        ensures { IsNext self.now.present partition (sequence.0 + 1) result }
    {
        let start = Bound::Excluded(Key::Meta(partition, sequence));
        let end = Bound::Excluded(past_nodes(partition));
        match self.present.range((start, end)).next() {
            Some(key) => sequence_in(*key),
            None => None,
        }
    }
}

/// The key after all metadata nodes of a partition.
fn past_nodes(partition: Partition) -> Key
    ensures { result ≡ past_nodes partition }
{
    if partition.0 == u32::MAX {
        Key::Ideal
    } else {
        Key::Meta(Partition(partition.0 + 1), Sequence(0))
    }
}

/// The sequence of a key, if it is one of metadata.
fn sequence_in(key: Key) -> Option<Sequence>
    ensures small { IsSmall key }
    ensures sequence { result ≡ sequence_in key }
{
    match key {
        Key::Meta(_, sequence) => Some(sequence),
        Key::Ideal => None,
        Key::Boot(_) => None,
    }
}
