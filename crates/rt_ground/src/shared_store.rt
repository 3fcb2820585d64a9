ghost use Rattle.std.specs.Prelude.{◌≡◌, IfOk};
ghost use Rattle.rt_model.specs.Lawful.{create, set, delete, create_after, bump};
ghost use Rattle.rt_store.specs.Calls.{
  Reads,
  Lists,
  Creates,
  SetsFrom,
  Deletes,
  CreatesAfter,
  Bumps,
  MayCreate,
  MaySet,
  MayDelete,
  MayCreateAfter,
};
ghost use Rattle.rt_ground.specs.Histories.{Meets, SeesMore, AreOfCallers};
ghost use Rattle.rt_ground.specs.Lawfulness.{IsLawfulStore};
ghost use Rattle.rt_ground.specs.StoreCalls.{shared_meaning, SharesBy, ShowsAll};

use crate::locked::Locked;
use crate::naming::Naming;
use crate::store_value::StoreValue;
use rt_base::{Instance, Partition};
use rt_front::Front;
use rt_lists::Items;
use rt_model::{Key, Listed, Node, Seen};
use rt_store::{Store, StoreRefused};
use std::alloc::{AllocError, Global};
use std::marker::Model;
use std::sync::Wait;

/// The store as one of its callers has it. Contracts see the caller's front. It meets no fault.
///
/// Each call takes the lock, makes one call of the value behind it and lets go.
#[derive(Drop)]
pub struct SharedStore<R, J: Naming> {
    rt: R,
    shared: Locked<Seen, StoreValue<J>>,
    front: Front<Seen>,
}

impl<R, J: Naming> Model for SharedStore<R, J> {
    ghost use Rattle.rt_model.specs.declared.node.Seen.{Seen};
    ghost use Rattle.rt_front.specs.Histories.{Known};

    ghost Value = { Known Seen };

    ghost use Rattle.std.specs.Prelude.{◌≡◌};

    ghost view = { λ s. s.front };

    ghost invariant = { λ s. (s.shared ≡ J.names.store) × (s.front.chronicle ≡ J.names.store) };
}

impl<R: Copy, J: Naming> SharedStore<R, J> {
    /// One who shares this value, with this front.
    pub(crate) fn of(
        rt: R,
        locked: &Locked<Seen, StoreValue<J>>,
        front: Front<Seen>,
    ) -> Result<Self, AllocError>
        requires { (locked.now ≡ J.names.store) × (front.chronicle ≡ J.names.store) }
        ensures { IfOk result (λ shared. shared ≡ front) }
    {
        Ok(SharedStore {
            rt,
            shared: locked.again()?,
            front,
        })
    }

    /// What the caller has seen behind the starting contents, and its own entries.
    pub fn front(&self) -> &Front<Seen>
        ensures { result.now ≡ self.now }
    {
        &self.front
    }

    /// Takes in the front of another caller.
    pub(crate) fn meet(&mut self, other: SharedStore<R, J>)
        ensures { Meets self.old other self.new }
    {
        let SharedStore { front, .. } = other;
        self.front.meet(self.shared.chronicle(), front);
    }
}

impl<R: Wait + Copy, J: Naming> SharedStore<R, J> {
    /// Brings the caller's front up to all writes at a moment of the call.
    pub(crate) fn tell(&mut self, rt: &R, locked: &Locked<Seen, StoreValue<J>>)
        requires { locked.now ≡ J.names.store }
        ensures sees { SeesMore self.old self.new }
        ensures callers { AreOfCallers J.callers self.new.seen }
        ensures lawful { IsLawfulStore J.starting self.new.seen }
    {
        let mut value = locked.lock(rt);
        value.tell(locked.chronicle(), &mut self.front);
    }

    /// All writes at a moment of the call, the earliest first, which the caller has seen then.
    pub(crate) fn history(
        &mut self,
        alloc: Global,
        rt: &R,
        locked: &Locked<Seen, StoreValue<J>>,
    ) -> Result<Vec<Seen>, AllocError>
        requires { locked.now ≡ J.names.store }
        ensures sees { SeesMore self.old self.new }
        ensures callers { AreOfCallers J.callers self.new.seen }
        ensures whole { IfOk result (λ writes. ShowsAll J.starting self.old self.new writes.items) }
    {
        let mut value = locked.lock(rt);
        value.history(alloc, locked.chronicle(), &mut self.front)
    }
}

impl<R: Wait + Copy, J: Naming> Store for SharedStore<R, J> {
    ghost use Rattle.rt_ground.specs.StoreCalls.{shared_meaning};

    ghost meaning = { shared_meaning J.starting };

    fn read(&mut self, alloc: Global, key: Key) -> Result<Seen, StoreRefused>
        ensures store { Reads (shared_meaning J.starting self.old) (shared_meaning J.starting self.new) key result }
        ensures mine { SeesMore self.old self.new }
    {
        let mut value = self.shared.lock(&self.rt);
        value.read(alloc, self.shared.chronicle(), &mut self.front, key)
    }

    fn list(&mut self, alloc: Global, partition: Partition) -> Result<Items<Listed>, StoreRefused>
        ensures store { Lists (shared_meaning J.starting self.old) (shared_meaning J.starting self.new) partition result }
        ensures mine { SeesMore self.old self.new }
    {
        let mut value = self.shared.lock(&self.rt);
        value.list(alloc, self.shared.chronicle(), &mut self.front, partition)
    }

    fn create(&mut self, alloc: Global, key: Key, node: &Node) -> Result<(), StoreRefused>
        requires { MayCreate (shared_meaning J.starting self.old) key node.now }
        ensures store { Creates (shared_meaning J.starting self.old) (shared_meaning J.starting self.new) key node.now result }
        ensures mine { SharesBy (create key node.now) J.starting self.old self.new result }
    {
        let mut value = self.shared.lock(&self.rt);
        value.create(alloc, self.shared.chronicle(), &mut self.front, key, node)
    }

    fn compare_and_set(
        &mut self,
        alloc: Global,
        seen: &Seen,
        node: &Node,
    ) -> Result<u64, StoreRefused>
        requires { MaySet (shared_meaning J.starting self.old) seen.now node.now }
        ensures store { SetsFrom (shared_meaning J.starting self.old) (shared_meaning J.starting self.new) seen.now node.now result }
        ensures mine { SharesBy (set seen.now node.now) J.starting self.old self.new result }
    {
        let mut value = self.shared.lock(&self.rt);
        value.compare_and_set(alloc, self.shared.chronicle(), &mut self.front, seen, node)
    }

    fn delete(&mut self, alloc: Global, seen: &Seen) -> Result<(), StoreRefused>
        requires { MayDelete (shared_meaning J.starting self.old) seen.now }
        ensures store { Deletes (shared_meaning J.starting self.old) (shared_meaning J.starting self.new) seen.now result }
        ensures mine { SharesBy (delete seen.now) J.starting self.old self.new result }
    {
        let mut value = self.shared.lock(&self.rt);
        value.delete(alloc, self.shared.chronicle(), &mut self.front, seen)
    }

    fn create_after(
        &mut self,
        alloc: Global,
        key: Key,
        node: &Node,
        prior: &Seen,
    ) -> Result<(), StoreRefused>
        requires { MayCreateAfter (shared_meaning J.starting self.old) key node.now prior.now }
        ensures store { CreatesAfter (shared_meaning J.starting self.old) (shared_meaning J.starting self.new) key node.now prior.now result }
        ensures mine { SharesBy (create_after key node.now prior.now) J.starting self.old self.new result }
    {
        let mut value = self.shared.lock(&self.rt);
        value.create_after(
            alloc,
            self.shared.chronicle(),
            &mut self.front,
            key,
            node,
            prior,
        )
    }

    fn bump(&mut self, alloc: Global, instance: Instance) -> Result<u64, StoreRefused>
        ensures store { Bumps (shared_meaning J.starting self.old) (shared_meaning J.starting self.new) instance result }
        ensures mine { SharesBy (bump instance) J.starting self.old self.new result }
    {
        let mut value = self.shared.lock(&self.rt);
        value.bump(alloc, self.shared.chronicle(), &mut self.front, instance)
    }
}
