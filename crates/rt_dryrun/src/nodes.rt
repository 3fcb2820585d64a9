//! Which nodes of a world a line names.
ghost use Rattle.std.specs.Prelude.{◌≡◌, ◌≤◌, IfOk, option_map, length};
ghost use Rattle.rt_dryrun.specs.Peers.{has_server, is_other, meta_in, others_of};
ghost use Rattle.rt_state.specs.Finding.{has_partition};

use rt_base::{Instance, NodeId, Partition, Sequence};
use rt_model::{Listed, SegMeta};
use rt_world::World;
use std::alloc::{AllocError, Global};

/// Whether a server's number is below their count.
pub(crate) fn has_server(world: &World, instance: Instance) -> bool
    ensures { result ≡ has_server world.now.state instance }
{
    instance.0 < world.setup().servers
}

/// Whether a partition's number is below their count.
pub(crate) fn has_partition(world: &World, partition: Partition) -> bool
    ensures { result ≡ has_partition world.now.state partition }
{
    partition.0 < world.setup().partitions
}

/// The other servers that are up, ascending. Fails only where memory is refused.
#[tactic(auto, using(crate::proofs::Others::other_more, crate::proofs::Others::other_less))]
pub(crate) fn others_of(
    alloc: Global,
    world: &World,
    instance: Instance,
) -> Result<Vec<Instance>, AllocError>
    ensures others { IfOk result (λ others. others.items ≡ others_of world.now.state instance) }
    ensures few { IfOk result (λ others. length others.items ≤ 4294967295) }
{
    let mut others = Vec::new(alloc);
    for number in 0..world.setup().servers {
        if is_other(world, instance, number) {
            others.push(Instance(number))?;
        }
    }
    Ok(others)
}

/// Whether the server of a number is another one, and up.
fn is_other(world: &World, instance: Instance, number: u32) -> bool
    ensures { result ≡ is_other world.now.state instance number }
{
    number != instance.0 && world.up(NodeId::Server(Instance(number)))
}

/// The metadata of a sequence among the nodes of a partition.
pub(crate) fn meta_in(nodes: &[Listed], sequence: Sequence) -> Option<&SegMeta>
    ensures { option_map (λ meta. meta.now) result ≡ meta_in nodes.now sequence }
{
    for node in nodes {
        if node.sequence == sequence {
            return Some(&node.seen.meta);
        }
    }
    None
}
