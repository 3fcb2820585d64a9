ghost use Rattle.std.specs.Prelude.{◌≡◌, IfOk};
ghost use Rattle.rt_model.specs.Setup.{IsSetup};
ghost use Rattle.rt_names.specs.Table.{IsTableName};

use rt_base::{Instance, Partition};
use rt_lists::{Items, Text};
use rt_model::Setup;
use std::alloc::{AllocError, Global};
use std::marker::Model;

/// What a controller keeps of its setup: the table's name, and where the replicas of partitions lie.
#[derive(Drop)]
pub struct Assignment {
    table: Text,
    replication: u32,
    servers: u32,
}

impl Model for Assignment {
    ghost use Rattle.rt_commit.specs.Assignment.{Assigned, IsAssigned};

    ghost Value = { Assigned };

    ghost view = { λ a. record { table = a.table; replication = a.replication; servers = a.servers } };

    ghost invariant = { λ a. IsAssigned (record { table = a.table; replication = a.replication; servers = a.servers }) };
}

impl Assignment {
    ghost use Rattle.std.specs.Prelude.{◌==◌};
    ghost use Rattle.rt_assign.specs.Placement.{replica_of};
    ghost use Rattle.rt_commit.specs.Assignment.{assigned_by, replicas_in, is_replica};

    /// That of a cluster within the limits. Fails only where memory is refused.
    pub fn of(alloc: Global, setup: &Setup) -> Result<Self, AllocError>
        requires { IsSetup setup.now }
        ensures { IfOk result (λ assignment. assignment ≡ assigned_by setup.now) }
    {
        Ok(Assignment {
            table: setup.table.name.copy(alloc)?,
            replication: setup.table.replication,
            servers: setup.servers,
        })
    }

    /// The name of the table.
    pub fn table(&self) -> &str
        ensures name { result.now ≡ self.now.table }
        ensures named { IsTableName self.now.table }
    {
        self.table.as_str()
    }

    /// The number of replicas of each partition.
    pub fn replication(&self) -> u32
        ensures { result ≡ self.now.replication }
    {
        self.replication
    }

    /// The instances that are assigned to a partition. Fails only where memory is refused.
    pub fn replicas(
        &self,
        alloc: Global,
        partition: Partition,
    ) -> Result<Items<Instance>, AllocError>
        ensures { IfOk result (λ replicas. replicas ≡ replicas_in self.now partition) }
    {
        rt_assign::replicas(alloc, partition, self.replication, self.servers)
    }

    /// Whether an instance is assigned to a partition. Takes no memory.
    #[tactic(auto, using(crate::proofs::Replicas::replica_found, crate::proofs::Replicas::replica_not_found))]
    pub fn is_replica(&self, partition: Partition, instance: Instance) -> bool
        ensures { result ≡ is_replica self.now partition instance }
    {
        for k in 0..self.replication {
            if self.is_replica_at(partition, k, instance) {
                return true;
            }
        }
        false
    }

    /// Whether an instance is replica `k` of a partition.
    fn is_replica_at(&self, partition: Partition, k: u32, instance: Instance) -> bool
        ensures { result ≡ ((replica_of partition self.now.replication self.now.servers k).0 == instance.0) }
    {
        rt_assign::replica(partition, k, self.replication, self.servers) == instance
    }
}
