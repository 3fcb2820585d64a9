ghost use Rattle.std.specs.Prelude.{◌≡◌, ◌++◌, [], IfOk, OnOk};
ghost use Rattle.rt_model.specs.Setup.{IsSetup};
ghost use Rattle.rt_model.specs.Starting.{starting_boots, starting_metas, starting_entries};
ghost use Rattle.rt_store.specs.Contents.{starting_of, fresh};

use crate::MemoryStore;
use rt_assign::replicas;
use rt_base::{Instance, Offset, Partition, Sequence};
use rt_ideal::add_segment;
use rt_lists::Items;
use rt_model::{IdealState, Key, Node, Setup};
use std::alloc::{AllocError, Global};

impl MemoryStore {
    /// The store of a fresh cluster: the boot node of each server, the first segment of each partition, in progress
    /// from offset 0, and the ideal state with these segments CONSUMING on their assigned instances. No fault is
    /// planned. The setup is one within the limits.
    pub fn make(alloc: Global, setup: &Setup) -> Result<Self, AllocError>
        requires { IsSetup setup.now }
        ensures { IfOk result (λ store. store ≡ fresh setup.now) }
    {
        let mut store = MemoryStore::empty(alloc);
        add_boot_nodes(&mut store, setup.servers)?;
        add_first_nodes(alloc, &mut store, setup)?;
        let state = first_state(alloc, setup)?;
        store.append(Key::Ideal, Node::Ideal(state))?;
        Ok(store)
    }
}

/// Adds the boot nodes of the servers.
#[tactic(auto, using(crate::proofs::Fresh::boots_more))]
fn add_boot_nodes(store: &mut MemoryStore, servers: u32) -> Result<(), AllocError>
    requires { store.old.writes ≡ [] }
    ensures { OnOk result (store.new ≡ record store.old { writes = starting_boots servers }) }
{
    for instance in 0..servers {
        store.append(Key::Boot(Instance(instance)), Node::Boot)?;
    }
    Ok(())
}

/// Adds the first segment of each partition.
#[tactic(auto, using(crate::proofs::Fresh::metas_more))]
fn add_first_nodes(alloc: Global, store: &mut MemoryStore, setup: &Setup) -> Result<(), AllocError>
    requires setup { IsSetup setup.now }
    requires boots { store.old.writes ≡ starting_boots setup.now.servers }
    ensures { OnOk result (store.new ≡ record store.old {
      writes = starting_boots setup.now.servers
          ++ starting_metas (starting_of setup.now) setup.now.partitions;
    }) }
{
    for partition in 0..setup.partitions {
        let place = Partition(partition);
        let table = setup.table.name.as_str();
        let meta = rt_meta::first(alloc, table, place, Sequence(0), Offset(0), setup.start)?;
        store.append(Key::Meta(place, Sequence(0)), Node::Meta(meta))?;
    }
    Ok(())
}

/// The first ideal state: the first segment of each partition CONSUMING on the instances that it is assigned to.
#[tactic(auto, using(crate::proofs::Fresh::entries_more))]
fn first_state(alloc: Global, setup: &Setup) -> Result<IdealState, AllocError>
    requires { IsSetup setup.now }
    ensures { IfOk result (λ state.
        state.entries ≡ starting_entries (starting_of setup.now) setup.now.partitions) }
{
    let mut entries = Vec::new(alloc);
    for number in 0..setup.partitions {
        let partition = Partition(number);
        let instances = replicas(alloc, partition, setup.table.replication, setup.servers)?;
        add_segment(&mut entries, partition, Sequence(0), instances.as_slice())?;
    }
    Ok(IdealState {
        entries: Items::of(entries),
    })
}
