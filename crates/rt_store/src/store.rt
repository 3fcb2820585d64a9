ghost use Rattle.rt_store.specs.Meaning.{Meaning};
ghost use Rattle.rt_store.specs.Calls.{
  Reads,
  Lists,
  Creates,
  SetsFrom,
  Deletes,
  CreatesAfter,
  Bumps,
  MayCreate,
  MaySet,
  MayDelete,
  MayCreateAfter,
};

use crate::StoreRefused;
use rt_base::{Instance, Partition};
use rt_lists::Items;
use rt_model::{Key, Listed, Node, Seen};
use std::alloc::Global;

/// Named nodes with versions. A node's version is the number of its earlier writes, a deletion among them.
///
/// A store means the list of all its writes with the faults to come, where these are told; the writes that its
/// caller has seen; and a count of faults. Each call's answer is by the writes as they stand after it, its own
/// left out, and these begin with what its caller had seen. A write needs to be lawful over what its caller has
/// seen. `Failed` comes only where the count rose; the write was then carried out wholly or not at all. A call
/// that is refused in another way writes nothing, and after `Memory` all is as before.
pub trait Store {
    /// What the store means.
    ghost meaning: { Self → Meaning };

    /// The value of a key: its last write. `NoNode` where the key has none, or was deleted.
    fn read(&mut self, alloc: Global, key: Key) -> Result<Seen, StoreRefused>
        ensures { Reads (meaning self.old) (meaning self.new) key result };

    /// The metadata nodes of a partition that are there, by sequence.
    fn list(&mut self, alloc: Global, partition: Partition) -> Result<Items<Listed>, StoreRefused>
        ensures { Lists (meaning self.old) (meaning self.new) partition result };

    /// Creates a node. `Exists` where it is there already.
    fn create(&mut self, alloc: Global, key: Key, node: &Node) -> Result<(), StoreRefused>
        requires { MayCreate (meaning self.old) key node.now }
        ensures { Creates (meaning self.old) (meaning self.new) key node.now result };

    /// Sets a node that was read, and answers its new version. `NoNode` where it isn't there,
    /// `VersionChanged` where it has another version than the one that was read.
    fn compare_and_set(
        &mut self,
        alloc: Global,
        seen: &Seen,
        node: &Node,
    ) -> Result<u64, StoreRefused>
        requires { MaySet (meaning self.old) seen.now node.now }
        ensures { SetsFrom (meaning self.old) (meaning self.new) seen.now node.now result };

    /// Deletes a node that was read. `NoNode` where it isn't there, `VersionChanged` where it has another
    /// version than the one that was read.
    fn delete(&mut self, alloc: Global, seen: &Seen) -> Result<(), StoreRefused>
        requires { MayDelete (meaning self.old) seen.now }
        ensures { Deletes (meaning self.old) (meaning self.new) seen.now result };

    /// Creates a node where a prior one still is as it was read. `NoNode` where the prior one isn't there, then
    /// `VersionChanged` where it has another version, then `Exists` where the node itself is there already.
    fn create_after(
        &mut self,
        alloc: Global,
        key: Key,
        node: &Node,
        prior: &Seen,
    ) -> Result<(), StoreRefused>
        requires { MayCreateAfter (meaning self.old) key node.now prior.now }
        ensures { CreatesAfter (meaning self.old) (meaning self.new) key node.now prior.now result };

    /// Writes the boot node of a server, whether it is there or not, and answers its version.
    fn bump(&mut self, alloc: Global, instance: Instance) -> Result<u64, StoreRefused>
        ensures { Bumps (meaning self.old) (meaning self.new) instance result };
}
