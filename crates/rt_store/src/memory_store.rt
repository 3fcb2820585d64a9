ghost use Rattle.std.specs.Prelude.{◌≡◌, ◌+◌, ◌++◌, ◌∷◌, [], Some, None, IfOk, OnOk, OnErr, option_copied, option_to_list};
ghost use Rattle.rt_model.specs.History.{value_of, value_by, last_write, next_version};
ghost use Rattle.rt_model.specs.Metadata.{metadata_of, listed_in, listed_by, node_key};
ghost use Rattle.rt_store.specs.Answers.{change_in, presence_in};
ghost use Rattle.rt_base.specs.Faults.{fault_of, met_fault};
ghost use Rattle.rt_store.specs.Calls.{
  Reads,
  Lists,
  Creates,
  SetsFrom,
  Deletes,
  CreatesAfter,
  Bumps,
};
ghost use Rattle.rt_store.specs.Memory.{means, with_write, refusal_under, WritesAs};

use crate::index::{Index, Latest};
use crate::{Store, StoreRefused};
use rt_base::{Fault, Instance, Partition, PlannedFaults, Sequence};
use rt_lists::{Copied, Items};
use rt_model::{Key, Listed, Node, Seen, SeenMeta};
use std::alloc::{AllocError, Global};
use std::marker::Model;

/// A store in memory, whose faults are planned.
#[derive(Drop)]
pub struct MemoryStore {
    writes: Vec<Seen>,
    index: Index,
    faults: PlannedFaults,
}

impl Model for MemoryStore {
    ghost use Rattle.rt_store.specs.Meaning.{Told};

    ghost Value = { Told };

    ghost use Rattle.rt_store.specs.Index.{IsIndex};

    ghost view = { λ a. record { writes = a.writes.items; faults = a.faults } };

    ghost invariant = { λ a. IsIndex a.writes.items a.index };
}

impl MemoryStore {
    /// A store without any write.
    #[tactic(auto, using(crate::proofs::Latest::index_empty))]
    pub(crate) fn empty(alloc: Global) -> Self
        ensures { result ≡ record { writes = []; faults = record { plan = []; met = 0 } } }
    {
        MemoryStore {
            writes: Vec::new(alloc),
            index: Index::new(alloc),
            faults: PlannedFaults::make(alloc),
        }
    }

    /// All writes, the earliest first.
    pub fn history(&self) -> &[Seen]
        ensures { result.now ≡ self.now.writes }
    {
        self.writes.as_slice()
    }

    /// Plans a fault for the first call that has none planned before it. A kept one carries a write that is not
    /// refused out first, a lost one doesn't.
    pub fn plan_fault(&mut self, kept: bool) -> Result<(), AllocError>
        ensures ok { OnOk result (self.new ≡ record self.old { faults = record self.old.faults { plan = self.old.faults.plan ++ kept ∷ [] } }) }
        ensures err { OnErr result (self.new ≡ self.old) }
    {
        self.faults.plan(kept)
    }

    /// The last write of a key, a deletion among them.
    fn last_write(&self, key: Key) -> Option<&Seen>
        ensures { option_copied result ≡ last_write self.now.writes key }
    {
        match self.index.latest(key) {
            Some(latest) => self.writes.get(latest.place),
            None => None,
        }
    }

    /// The value of a key: its last write, unless that is a deletion. It is no call of a store, and meets no fault.
    pub fn value(&self, key: Key) -> Option<&Seen>
        ensures { option_copied result ≡ value_of self.now.writes key }
    {
        match self.last_write(key) {
            Some(seen) => unless_gone(seen),
            None => None,
        }
    }

    /// Why a node no longer stands as it was read.
    fn change(&self, seen: &Seen) -> Option<StoreRefused>
        ensures { result ≡ change_in seen.now.version (value_of self.now.writes seen.now.key) }
    {
        match self.value(seen.key) {
            Some(found) if found.version == seen.version => None,
            Some(found) => Some(StoreRefused::VersionChanged {
                expected: seen.version,
                found: found.version,
            }),
            None => Some(StoreRefused::NoNode),
        }
    }

    /// Why a node can't be created.
    fn presence(&self, key: Key) -> Option<StoreRefused>
        ensures { result ≡ presence_in (value_of self.now.writes key) }
    {
        match self.value(key) {
            Some(found) => Some(StoreRefused::Exists {
                found: found.version,
            }),
            None => None,
        }
    }

    /// The version that the next write of a key gets.
    fn next_version(&self, key: Key) -> u64
        ensures { result ≡ next_version self.now.writes key }
    {
        match self.index.latest(key) {
            Some(latest) => latest.version + 1,
            None => 0,
        }
    }

    /// Adds a write of a node that is to be copied, and answers its version.
    fn carry_out(&mut self, alloc: Global, key: Key, node: &Node) -> Result<u64, AllocError>
        ensures ok { IfOk result (λ version. (version ≡ next_version self.old.writes key)
            × (self.new ≡ with_write self.old key node.now)) }
        ensures err { OnErr result (self.new ≡ self.old) }
    {
        self.append(key, node.copied(alloc)?)
    }

    /// Adds a write, and answers its version.
    pub(crate) fn append(&mut self, key: Key, node: Node) -> Result<u64, AllocError>
        ensures ok { IfOk result (λ version. (version ≡ next_version self.old.writes key)
            × (self.new ≡ with_write self.old key node)) }
        ensures err { OnErr result (self.new ≡ self.old) }
    {
        let version = self.next_version(key);
        let place = self.writes.len();
        self.writes.reserve(1)?;
        let latest = Latest { version, place };
        self.index.note(key, latest, &node)?;
        self.writes.push_reserved(Seen { key, version, node });
        Ok(version)
    }

    /// The metadata nodes of a partition that are there, by sequence. It is no call of a store, and meets no fault.
    pub fn metadata(&self, alloc: Global, partition: Partition) -> Result<Items<Listed>, AllocError>
        ensures { IfOk result (λ nodes. nodes ≡ metadata_of self.now.writes partition) }
    {
        let mut nodes = Items::new(alloc);
        let mut next = self.index.first_node(partition);
        while let Some(sequence) = next {
            self.add_node(alloc, partition, sequence, &mut nodes)?;
            next = self.index.node_after(partition, sequence);
        }
        Ok(nodes)
    }

    /// Adds a metadata node to a list, if it is there.
    fn add_node(
        &self,
        alloc: Global,
        partition: Partition,
        sequence: Sequence,
        nodes: &mut Items<Listed>,
    ) -> Result<(), AllocError>
        ensures { OnOk result (nodes.new
            ≡ nodes.old ++ option_to_list (listed_in sequence.0 (value_of self.now.writes (node_key partition sequence.0)))) }
    {
        if let Some(node) = self.listed(alloc, partition, sequence)? {
            nodes.push(node)?;
        }
        Ok(())
    }

    /// A metadata node as it is listed, if it is there.
    fn listed(
        &self,
        alloc: Global,
        partition: Partition,
        sequence: Sequence,
    ) -> Result<Option<Listed>, AllocError>
        ensures { IfOk result (λ listed.
            listed ≡ listed_in sequence.0 (value_of self.now.writes (node_key partition sequence.0))) }
    {
        match self.value(Key::Meta(partition, sequence)) {
            Some(seen) => listed_node(alloc, sequence, seen),
            None => Ok(None),
        }
    }

    /// Does a call that writes this node, under the fault that it meets.
    fn write(&mut self, alloc: Global, key: Key, node: &Node) -> Result<u64, StoreRefused>
        ensures { WritesAs self.old self.new key node.now result }
    {
        match self.faults.next() {
            Fault::Nothing => Ok(self.carry_out(alloc, key, node)?),
            Fault::Lost => Err(self.refuse(StoreRefused::Failed)),
            Fault::Kept => {
                self.carry_out(alloc, key, node)?;
                Err(self.refuse(StoreRefused::Failed))
            }
        }
    }

    /// Does a call that is refused, under the fault that it meets.
    fn refuse(&mut self, refused: StoreRefused) -> StoreRefused
        ensures answered { result ≡ refusal_under (fault_of self.old.faults.plan) refused }
        ensures told { self.new ≡ record self.old { faults = met_fault self.old.faults } }
    {
        match self.faults.meet() {
            Fault::Nothing => refused,
            Fault::Lost | Fault::Kept => StoreRefused::Failed,
        }
    }
}

/// Its calls carry out any write, lawful or not.
impl Store for MemoryStore {
    ghost use Rattle.rt_store.specs.Memory.{means};

    ghost meaning = { means };

    fn read(&mut self, alloc: Global, key: Key) -> Result<Seen, StoreRefused>
        ensures { Reads (means self.old) (means self.new) key result }
    {
        if self.faults.meet() != Fault::Nothing {
            return Err(StoreRefused::Failed);
        }
        match self.value(key) {
            Some(seen) => Ok(seen.copied(alloc)?),
            None => Err(StoreRefused::NoNode),
        }
    }

    fn list(&mut self, alloc: Global, partition: Partition) -> Result<Items<Listed>, StoreRefused>
        ensures { Lists (means self.old) (means self.new) partition result }
    {
        if self.faults.meet() != Fault::Nothing {
            return Err(StoreRefused::Failed);
        }
        Ok(self.metadata(alloc, partition)?)
    }

    fn create(&mut self, alloc: Global, key: Key, node: &Node) -> Result<(), StoreRefused>
        ensures { Creates (means self.old) (means self.new) key node.now result }
    {
        match self.presence(key) {
            Some(refused) => Err(self.refuse(refused)),
            None => self.write(alloc, key, node).map(|_| ()),
        }
    }

    fn compare_and_set(
        &mut self,
        alloc: Global,
        seen: &Seen,
        node: &Node,
    ) -> Result<u64, StoreRefused>
        ensures { SetsFrom (means self.old) (means self.new) seen.now node.now result }
    {
        match self.change(seen) {
            Some(refused) => Err(self.refuse(refused)),
            None => self.write(alloc, seen.key, node),
        }
    }

    fn delete(&mut self, alloc: Global, seen: &Seen) -> Result<(), StoreRefused>
        ensures { Deletes (means self.old) (means self.new) seen.now result }
    {
        match self.change(seen) {
            Some(refused) => Err(self.refuse(refused)),
            None => self.write(alloc, seen.key, &Node::Gone).map(|_| ()),
        }
    }

    fn create_after(
        &mut self,
        alloc: Global,
        key: Key,
        node: &Node,
        prior: &Seen,
    ) -> Result<(), StoreRefused>
        ensures { CreatesAfter (means self.old) (means self.new) key node.now prior.now result }
    {
        if let Some(refused) = self.change(prior) {
            return Err(self.refuse(refused));
        }
        match self.presence(key) {
            Some(refused) => Err(self.refuse(refused)),
            None => self.write(alloc, key, node).map(|_| ()),
        }
    }

    fn bump(&mut self, alloc: Global, instance: Instance) -> Result<u64, StoreRefused>
        ensures { Bumps (means self.old) (means self.new) instance result }
    {
        self.write(alloc, Key::Boot(instance), &Node::Boot)
    }
}

/// A write, unless it is a deletion.
fn unless_gone(seen: &Seen) -> Option<&Seen>
    ensures { option_copied result ≡ value_by seen.now.node seen.now }
{
    match seen.node {
        Node::Gone => None,
        _ => Some(seen),
    }
}

/// A value as it is listed, if it is metadata.
fn listed_node(alloc: Global, sequence: Sequence, seen: &Seen) -> Result<Option<Listed>, AllocError>
    ensures { IfOk result (λ listed. listed ≡ listed_by sequence.0 seen.now.version seen.now.node) }
{
    match &seen.node {
        Node::Meta(meta) => Ok(Some(Listed {
            sequence,
            seen: SeenMeta {
                version: seen.version,
                meta: meta.copied(alloc)?,
            },
        })),
        Node::Ideal(_) => Ok(None),
        Node::Boot => Ok(None),
        Node::Gone => Ok(None),
    }
}
