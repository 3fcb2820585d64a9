ghost use Rattle.std.specs.Prelude.{◌≡◌, ◌≤◌, ℕ, IfOk};
ghost use Rattle.rt_base.specs.declared.numbers.Partition.{Partition};
ghost use Rattle.rt_model.specs.declared.setup.Setup.{Setup};
ghost use Rattle.rt_model.specs.Order.{AreDistinct};
ghost use Rattle.rt_model.specs.Setup.{IsSetup};
ghost use Rattle.rt_assign.specs.Placement.{replica_of, replicas_of, IsPlaced};

use rt_base::{Instance, Partition};
use rt_lists::Items;
use std::alloc::{AllocError, Global};

/// The server of replica `k` of a partition: neighbouring partitions start `replication` servers
/// apart, and the replicas of one partition lie on servers that follow each other in a ring.
pub fn replica(partition: Partition, k: u32, replication: u32, servers: u32) -> Instance
    requires some { 1 ≤ replication }
    requires enough { replication ≤ servers }
    ensures { result ≡ replica_of partition replication servers k }
{
    let place = u64::from(partition.0) * u64::from(replication) + u64::from(k);
    Instance((place % u64::from(servers)) as u32)
}

/// The servers of all replicas of a partition, from replica 0 on.
#[tactic(auto, using(crate::proofs::Ring::replicas_more))]
pub fn replicas(
    alloc: Global,
    partition: Partition,
    replication: u32,
    servers: u32,
) -> Result<Items<Instance>, AllocError>
    requires some { 1 ≤ replication }
    requires enough { replication ≤ servers }
    ensures { IfOk result (λ listed. listed ≡ replicas_of partition replication servers) }
{
    let mut listed = Items::new(alloc);
    for k in 0..replication {
        listed.push(replica(partition, k, replication, servers))?;
    }
    Ok(listed)
}

/// The replicas of a partition are as many as asked for, on different servers, all of which exist; so are those of
/// each cluster within the limits.
#[tactic(auto, using(crate::proofs::Ring::replicas_placed, crate::proofs::Ring::setup_placed, crate::proofs::Ring::setup_distinct))]
pub fn replicas_are_placed()
    ensures placed { (p : Partition) (replication servers : ℕ) → 1 ≤ replication → replication ≤ servers
        → IsPlaced replication servers (replicas_of p replication servers) }
    ensures of_a_setup { (setup : Setup) (p : Partition) → IsSetup setup
        → IsPlaced setup.table.replication setup.servers (replicas_of p setup.table.replication setup.servers) }
    ensures distinct { (setup : Setup) (p : Partition) → IsSetup setup
        → AreDistinct (replicas_of p setup.table.replication setup.servers) }
{}
