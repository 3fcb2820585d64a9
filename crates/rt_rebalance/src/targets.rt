ghost use Rattle.std.specs.Prelude.{◌≡◌, ◌≤◌, ◌++◌, map, IfOk, OnOk};
ghost use Rattle.rt_model.specs.Order.{IsAscending};
ghost use Rattle.rt_rebalance.specs.Target.{IsTarget, placed, target_of, target_segment, turned_online};

use crate::segments::{are_online, part};
use rt_assign::replicas;
use rt_ideal::add_segment;
use rt_lists::Items;
use rt_model::{IdealEntry, IdealState, Mode};
use std::alloc::{AllocError, Global};

/// Where the segments are to be with this many replicas on this many servers: a segment whose entries are all ONLINE is
/// ONLINE on the replicas of its partition, and all other entries stay. Fails only where memory is refused.
#[tactic(auto, using(crate::proofs::Placing::is_target))]
pub fn target(
    alloc: Global,
    current: &IdealState,
    replication: u32,
    servers: u32,
) -> Result<IdealState, AllocError>
    requires some { 1 ≤ replication }
    requires enough { replication ≤ servers }
    ensures entries { IfOk result (λ target. target.entries ≡ target_of replication servers current.now.entries) }
    ensures target { IsAscending current.now.entries → IfOk result (λ target. IsTarget current.now.entries target.entries) }
{
    let entries = target_of(alloc, current.entries.as_slice(), replication, servers)?;
    Ok(IdealState { entries })
}

fn target_of(
    alloc: Global,
    current: &[IdealEntry],
    replication: u32,
    servers: u32,
) -> Result<Items<IdealEntry>, AllocError>
    requires some { 1 ≤ replication }
    requires enough { replication ≤ servers }
    ensures { IfOk result (λ entries. entries ≡ target_of replication servers current.now) }
{
    let mut entries = Items::new(alloc);
    let mut later = current;
    while !later.is_empty() {
        let here = part(later);
        add_target(alloc, &mut entries, here.first, replication, servers)?;
        later = here.rest;
    }
    Ok(entries)
}

fn add_target(
    alloc: Global,
    entries: &mut Items<IdealEntry>,
    segment: &[IdealEntry],
    replication: u32,
    servers: u32,
) -> Result<(), AllocError>
    requires some { 1 ≤ replication }
    requires enough { replication ≤ servers }
    ensures { OnOk result (entries.new ≡ entries.old ++ target_segment replication servers segment.now) }
{
    match segment.first() {
        None => Ok(()),
        Some(first) => {
            if are_online(segment) {
                let placed = placed(alloc, *first, replication, servers)?;
                add_all(entries, placed.as_slice())
            } else {
                add_all(entries, segment)
            }
        }
    }
}

fn add_all(entries: &mut Items<IdealEntry>, more: &[IdealEntry]) -> Result<(), AllocError>
    ensures { OnOk result (entries.new ≡ entries.old ++ more.now) }
{
    for entry in more {
        entries.push(*entry)?;
    }
    Ok(())
}

// The entries of a segment on the replicas of its partition, ascending.
fn placed(
    alloc: Global,
    entry: IdealEntry,
    replication: u32,
    servers: u32,
) -> Result<Items<IdealEntry>, AllocError>
    requires some { 1 ≤ replication }
    requires enough { replication ≤ servers }
    ensures { IfOk result (λ entries. entries ≡ placed replication servers entry) }
{
    let instances = replicas(alloc, entry.partition, replication, servers)?;
    let mut consuming = Vec::new(alloc);
    add_segment(
        &mut consuming,
        entry.partition,
        entry.sequence,
        instances.as_slice(),
    )?;
    online(alloc, consuming.as_slice())
}

fn online(alloc: Global, entries: &[IdealEntry]) -> Result<Items<IdealEntry>, AllocError>
    ensures { IfOk result (λ online. online ≡ map turned_online entries.now) }
{
    let mut online = Items::new(alloc);
    for entry in entries {
        online.push(IdealEntry {
            mode: Mode::Online,
            ..*entry
        })?;
    }
    Ok(online)
}
