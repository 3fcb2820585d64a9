ghost use Rattle.std.specs.Prelude.{IfOk};
ghost use Rattle.rt_threads.specs.Boots.{BootsBy, BootsAsOwn};

use rt_base::{Instance, Partition};
use rt_ground::{Naming, SharedStore};
use rt_store::{Store, StoreRefused};
use std::alloc::{AllocError, Global};
use std::sync::Wait;

/// What a store answers to a list and then a boot.
pub fn booted<R: Wait + Copy, J: Naming>(
    alloc: Global,
    store: &mut SharedStore<R, J>,
) -> Result<String, AllocError> {
    let version = boot_shared(alloc, store, Partition(0), Instance(0));
    format!(in alloc; "list and boot {version:?}")
}

/// Lists a partition of any store, and then writes the boot node.
fn boot<S: Store>(
    alloc: Global,
    store: &mut S,
    partition: Partition,
    instance: Instance,
) -> Result<u64, StoreRefused>
    ensures { BootsBy (S.meaning store.old) (S.meaning store.new) partition instance result }
{
    let _listed = store.list(alloc, partition)?;
    store.bump(alloc, instance)
}

/// The same of a shared store: what it means to its caller tells that the one write is the caller's own.
pub fn boot_shared<R: Wait + Copy, J: Naming>(
    alloc: Global,
    store: &mut SharedStore<R, J>,
    partition: Partition,
    instance: Instance,
) -> Result<u64, StoreRefused>
    ensures { IfOk result (λ version. BootsAsOwn store.old store.new instance version) }
{
    boot(alloc, store, partition, instance)
}
