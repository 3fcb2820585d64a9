ghost use Rattle.std.specs.Prelude.{◌≡◌, true, [], IfOk};
ghost use Rattle.rt_model.specs.Setup.{IsSetup};
ghost use Rattle.rt_model.specs.Lawful.{IsLawful, create, set, delete, create_after, bump};
ghost use Rattle.rt_store.specs.Answers.{reading, listing};
ghost use Rattle.rt_store.specs.Contents.{starting_of};
ghost use Rattle.rt_ground.specs.Callers.{fronts_from};
ghost use Rattle.rt_ground.specs.Histories.{Tells, AreOfCallers};
ghost use Rattle.rt_ground.specs.Lawfulness.{IsLawfulStore};
ghost use Rattle.rt_ground.specs.StoreCalls.{history_of, seen_by, SettledBy, WritesOnce, Looks};

use crate::naming::Naming;
use crate::register::Register;
use rt_base::{Instance, Partition};
use rt_front::{Blank, Chronicle, Front, Keeper, found};
use rt_lists::{Copied, Items};
use rt_model::{Key, Listed, Node, Seen, Setup};
use rt_store::{MemoryStore, Store, StoreRefused};
use std::alloc::{AllocError, Global};
use std::marker::{Model, PhantomData};

/// The store behind its lock. Contracts see the history since the starting contents.
///
/// Each call answers by the whole history, which the front has seen afterwards. A write needs to be lawful over what the
/// front has seen. A write that is carried out is the last entry then, and the front has one entry more of its own; a
/// refused one adds nothing. After a write that ran out of memory all is as before; after every other call the history is
/// told lawful.
#[derive(Drop)]
pub struct StoreValue<J: Naming> {
    store: MemoryStore,
    register: Register<Seen>,
    of: PhantomData<J>,
}

impl<J: Naming> Model for StoreValue<J> {
    ghost use Rattle.std.specs.Prelude.{List};
    ghost use Rattle.rt_model.specs.declared.node.Seen.{Seen};
    ghost use Rattle.rt_front.specs.declared.entry.Entry.{Entry};

    ghost Value = { List (Entry Seen) };

    ghost use Rattle.std.specs.Prelude.{◌≡◌};
    ghost use Rattle.rt_ground.specs.StoreCalls.{held};
    ghost use Rattle.rt_ground.specs.Lawfulness.{IsLawfulLog};

    ghost view = { λ v. v.register.log };

    ghost invariant = { λ v. (v.register.chronicle ≡ J.names.store)
        × (v.store ≡ held J.starting v.register.log) × IsLawfulLog J.starting v.register.log
        × (v.register.made ≡ J.callers) };
}

impl<J: Naming> StoreValue<J> {
    /// Founds the store of a fresh cluster, which has no write behind the starting contents, and the fronts of so many
    /// callers. No other front of it is made.
    pub fn found(
        alloc: Global,
        blank: Blank<Seen>,
        setup: &Setup,
        callers: u32,
    ) -> Result<(Chronicle<Seen>, StoreValue<J>, Vec<Front<Seen>>), AllocError>
        requires name { blank ≡ J.names.store }
        requires setup { IsSetup setup.now }
        requires starting { starting_of setup.now ≡ J.starting }
        requires callers { callers ≡ J.callers }
        ensures chronicle { IfOk result (λ r. r.0 ≡ J.names.store) }
        ensures empty { IfOk result (λ r. r.1 ≡ []) }
        ensures fronts { IfOk result (λ r. r.2.items ≡ fronts_from J.names.store 0 callers) }
    {
        let (chronicle, keeper, fronts) = found(alloc, blank, callers)?;
        let value = StoreValue::fresh(alloc, setup, keeper)?;
        Ok((chronicle, value, fronts))
    }

    /// The store of a fresh cluster.
    fn fresh(alloc: Global, setup: &Setup, keeper: Keeper<Seen>) -> Result<Self, AllocError>
        requires setup { IsSetup setup.now }
        requires starting { starting_of setup.now ≡ J.starting }
        requires keeper { (keeper.chronicle ≡ J.names.store) × (keeper.log ≡ []) × (keeper.made ≡ J.callers) }
        ensures { IfOk result (λ value. value ≡ []) }
    {
        Ok(StoreValue {
            store: MemoryStore::make(alloc, setup)?,
            register: Register::of(alloc, keeper),
            of: PhantomData,
        })
    }

    /// The value of a key. `NoNode` where the key has none, or was deleted.
    pub fn read(
        &mut self,
        alloc: Global,
        chronicle: &Chronicle<Seen>,
        front: &mut Front<Seen>,
        key: Key,
    ) -> Result<Seen, StoreRefused>
        requires { (chronicle.now ≡ J.names.store) × (front.old.chronicle ≡ J.names.store) }
        ensures name { front.new.chronicle ≡ front.old.chronicle }
        ensures store { Looks (reading key) J.starting self.old self.new front.old front.new result }
    {
        let answer = self.store.read(alloc, key);
        self.register.tell(chronicle, front);
        answer
    }

    /// The metadata nodes of a partition that are there, by sequence.
    pub fn list(
        &mut self,
        alloc: Global,
        chronicle: &Chronicle<Seen>,
        front: &mut Front<Seen>,
        partition: Partition,
    ) -> Result<Items<Listed>, StoreRefused>
        requires { (chronicle.now ≡ J.names.store) × (front.old.chronicle ≡ J.names.store) }
        ensures name { front.new.chronicle ≡ front.old.chronicle }
        ensures store { Looks (listing partition) J.starting self.old self.new front.old front.new result }
    {
        let answer = self.store.list(alloc, partition);
        self.register.tell(chronicle, front);
        answer
    }

    /// Creates a node. `Exists` where it is there already.
    pub fn create(
        &mut self,
        alloc: Global,
        chronicle: &Chronicle<Seen>,
        front: &mut Front<Seen>,
        key: Key,
        node: &Node,
    ) -> Result<(), StoreRefused>
        requires names { (chronicle.now ≡ J.names.store) × (front.old.chronicle ≡ J.names.store) }
        requires lawful { IsLawful (seen_by J.starting front.old) (create key node.now) }
        ensures name { front.new.chronicle ≡ front.old.chronicle }
        ensures store { WritesOnce (λ w. tt) (create key node.now) J.starting self.old self.new front.old front.new result }
    {
        self.register.reserve()?;
        let answer = self.store.create(alloc, key, node);
        settle(&self.store, &mut self.register, chronicle, front, answer)
    }

    /// Sets a node that was read, and answers its new version. `NoNode` where it isn't there, `VersionChanged` where it
    /// has another version than the one that was read.
    pub fn compare_and_set(
        &mut self,
        alloc: Global,
        chronicle: &Chronicle<Seen>,
        front: &mut Front<Seen>,
        seen: &Seen,
        node: &Node,
    ) -> Result<u64, StoreRefused>
        requires names { (chronicle.now ≡ J.names.store) × (front.old.chronicle ≡ J.names.store) }
        requires lawful { IsLawful (seen_by J.starting front.old) (set seen.now node.now) }
        ensures name { front.new.chronicle ≡ front.old.chronicle }
        ensures store { WritesOnce (λ w. w.version) (set seen.now node.now) J.starting self.old self.new front.old front.new result }
    {
        self.register.reserve()?;
        let answer = self.store.compare_and_set(alloc, seen, node);
        settle(&self.store, &mut self.register, chronicle, front, answer)
    }

    /// Writes the boot node of a server, whether it is there or not, and answers its version.
    pub fn bump(
        &mut self,
        alloc: Global,
        chronicle: &Chronicle<Seen>,
        front: &mut Front<Seen>,
        instance: Instance,
    ) -> Result<u64, StoreRefused>
        requires { (chronicle.now ≡ J.names.store) × (front.old.chronicle ≡ J.names.store) }
        ensures name { front.new.chronicle ≡ front.old.chronicle }
        ensures store { WritesOnce (λ w. w.version) (bump instance) J.starting self.old self.new front.old front.new result }
    {
        self.register.reserve()?;
        let answer = self.store.bump(alloc, instance);
        settle(&self.store, &mut self.register, chronicle, front, answer)
    }

    /// Deletes a node that was read. `NoNode` where it isn't there, `VersionChanged` where it has another version than
    /// the one that was read.
    pub fn delete(
        &mut self,
        alloc: Global,
        chronicle: &Chronicle<Seen>,
        front: &mut Front<Seen>,
        seen: &Seen,
    ) -> Result<(), StoreRefused>
        requires names { (chronicle.now ≡ J.names.store) × (front.old.chronicle ≡ J.names.store) }
        requires lawful { IsLawful (seen_by J.starting front.old) (delete seen.now) }
        ensures name { front.new.chronicle ≡ front.old.chronicle }
        ensures store { WritesOnce (λ w. tt) (delete seen.now) J.starting self.old self.new front.old front.new result }
    {
        self.register.reserve()?;
        let answer = self.store.delete(alloc, seen);
        settle(&self.store, &mut self.register, chronicle, front, answer)
    }

    /// Creates a node where a prior one still is as it was read. `NoNode` where the prior one isn't there, then
    /// `VersionChanged` where it has another version, then `Exists` where the node itself is there already.
    pub fn create_after(
        &mut self,
        alloc: Global,
        chronicle: &Chronicle<Seen>,
        front: &mut Front<Seen>,
        key: Key,
        node: &Node,
        prior: &Seen,
    ) -> Result<(), StoreRefused>
        requires names { (chronicle.now ≡ J.names.store) × (front.old.chronicle ≡ J.names.store) }
        requires lawful { IsLawful (seen_by J.starting front.old) (create_after key node.now prior.now) }
        ensures name { front.new.chronicle ≡ front.old.chronicle }
        ensures store { WritesOnce (λ w. tt) (create_after key node.now prior.now) J.starting self.old self.new front.old front.new result }
    {
        self.register.reserve()?;
        let answer = self.store.create_after(alloc, key, node, prior);
        settle(&self.store, &mut self.register, chronicle, front, answer)
    }

    /// Brings a front up to the whole history.
    pub(crate) fn tell(&mut self, chronicle: &Chronicle<Seen>, front: &mut Front<Seen>)
        requires { (chronicle.now ≡ J.names.store) × (front.old.chronicle ≡ J.names.store) }
        ensures same { self.new ≡ self.old }
        ensures name { front.new.chronicle ≡ front.old.chronicle }
        ensures told { Tells self.old front.old front.new }
        ensures callers { AreOfCallers J.callers self.old }
        ensures lawful { IsLawfulStore J.starting self.old }
    {
        self.register.tell(chronicle, front);
    }

    /// All writes, the earliest first, which the front has then seen.
    pub(crate) fn history(
        &mut self,
        alloc: Global,
        chronicle: &Chronicle<Seen>,
        front: &mut Front<Seen>,
    ) -> Result<Vec<Seen>, AllocError>
        requires { (chronicle.now ≡ J.names.store) × (front.old.chronicle ≡ J.names.store) }
        ensures same { self.new ≡ self.old }
        ensures name { front.new.chronicle ≡ front.old.chronicle }
        ensures told { Tells self.old front.old front.new }
        ensures writes { IfOk result (λ writes. writes.items ≡ history_of J.starting self.old) }
        ensures callers { AreOfCallers J.callers self.old }
        ensures lawful { IsLawfulStore J.starting self.old }
    {
        self.register.tell(chronicle, front);
        copied_all(alloc, self.store.history())
    }
}

/// Notes what was written last, where a write was carried out; else tells the front, but where memory ran out.
fn settle<X>(
    store: &MemoryStore,
    register: &mut Register<Seen>,
    chronicle: &Chronicle<Seen>,
    front: &mut Front<Seen>,
    answer: Result<X, StoreRefused>,
) -> Result<X, StoreRefused>
    requires chronicle { (register.old.chronicle ≡ chronicle.now) × (front.old.chronicle ≡ chronicle.now) }
    requires room { register.old.room ≡ true }
    ensures same { result ≡ answer }
    ensures names { (register.new.chronicle ≡ register.old.chronicle) × (front.new.chronicle ≡ front.old.chronicle) }
    ensures made { register.new.made ≡ register.old.made }
    ensures settled { SettledBy store.now.writes register.old.log register.new.log front.old front.new answer }
{
    match answer {
        Ok(x) => {
            if let Some(write) = store.history().last() {
                register.note(chronicle, front, write);
            }
            Ok(x)
        }
        Err(StoreRefused::Memory) => Err(StoreRefused::Memory),
        Err(refused) => {
            register.tell(chronicle, front);
            Err(refused)
        }
    }
}

/// Copies of these writes.
fn copied_all(alloc: Global, writes: &[Seen]) -> Result<Vec<Seen>, AllocError>
    ensures { IfOk result (λ copies. copies.items ≡ writes.now) }
{
    let mut copies = Vec::new(alloc);
    for write in writes {
        copies.push(write.copied(alloc)?)?;
    }
    Ok(copies)
}
