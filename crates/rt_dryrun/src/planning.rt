//! The numbers of a plan.
ghost use Rattle.std.specs.Prelude.{◌≡◌, ◌≤◌, IfOk, IsTrue};
ghost use Rattle.std.specs.List.{count_by};
ghost use Rattle.rt_base.specs.declared.limits.TheConstants.{MOST_SERVERS};
ghost use Rattle.rt_dryrun.specs.Rehearsing.{capped, is_fit, is_new, moves_of};

use rt_base::limits::MOST_SERVERS;
use rt_model::{IdealEntry, IdealState};
use rt_rebalance::Replicas;
use rt_world::World;
use std::alloc::{AllocError, Global};

/// Whether there can be so many servers, and each segment can stand on as many of them as it has replicas.
pub(crate) fn is_fit(world: &World, servers: u64) -> bool
    ensures fit { result ≡ is_fit world.now.state servers }
    ensures enough { IsTrue result → world.now.state.setup.table.replication ≤ servers }
    ensures few { IsTrue result → servers ≤ MOST_SERVERS }
{
    u64::from(world.setup().table.replication) <= servers && servers <= u64::from(MOST_SERVERS)
}

/// A number of 32 bits: the greatest for all that are above it.
pub(crate) fn capped(keep: u64) -> u32
    ensures { result ≡ capped keep }
{
    keep.min(4294967295) as u32
}

/// The number of a target's instances that haven't their segment in the current state. Fails only where memory is refused.
pub(crate) fn moves_of(
    alloc: Global,
    current: &IdealState,
    target: &[IdealEntry],
) -> Result<u64, AllocError>
    ensures { IfOk result (λ moves. moves ≡ moves_of current.now.entries target.now) }
{
    let had = Replicas::of(alloc, current.entries.as_slice())?;
    Ok(count_new(&had, target) as u64)
}

// The number of entries whose instance isn't among those that had the segment.
fn count_new(had: &Replicas, entries: &[IdealEntry]) -> usize
    ensures { result ≡ count_by (is_new had.now) entries.now }
{
    let mut count: usize = 0;
    for entry in entries {
        if is_new(had, entry) {
            count += 1;
        }
    }
    count
}

fn is_new(had: &Replicas, entry: &IdealEntry) -> bool
    ensures { result ≡ is_new had.now entry.now }
{
    !had.has(entry.partition, entry.sequence, entry.instance)
}
