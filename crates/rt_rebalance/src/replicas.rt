ghost use Rattle.std.specs.Prelude.{◌≡◌, IfOk};
ghost use Rattle.rt_rebalance.specs.Replicas.{AreReplicas, is_among};

use rt_base::{Instance, Partition, Sequence};
use rt_model::IdealEntry;
use std::alloc::{AllocError, Global};
use std::collections::BTreeSet;
use std::marker::Model;

/// Which instances have which segments, in whatever mode, in an order in which they are looked up.
#[derive(Drop)]
pub struct Replicas {
    places: BTreeSet<(Partition, Sequence, Instance)>,
}

impl Model for Replicas {
    ghost use Rattle.std.specs.Prelude.{List};
    ghost use Rattle.rt_rebalance.specs.Replicas.{Replica};

    ghost Value = { List Replica };

    ghost view = { λ a. a.places.keys };
}

impl Replicas {
    /// Those of the entries of an ideal state, in whatever order these are. Fails only where memory is refused.
    pub fn of(alloc: Global, entries: &[IdealEntry]) -> Result<Replicas, AllocError>
        ensures { IfOk result (λ replicas. AreReplicas replicas entries.now) }
    {
        let mut places = BTreeSet::new(alloc);
        for entry in entries {
            places.insert((entry.partition, entry.sequence, entry.instance))?;
        }
        Ok(Replicas { places })
    }

    /// Whether an instance has a segment. Takes no memory.
    pub fn has(&self, partition: Partition, sequence: Sequence, instance: Instance) -> bool
        ensures { result ≡ is_among self.now partition sequence instance }
    {
        self.places.contains(&(partition, sequence, instance))
    }
}
