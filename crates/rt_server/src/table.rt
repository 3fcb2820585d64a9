ghost use Rattle.std.specs.Prelude.{◌≡◌, ◌<◌, [], Some, IfOk, OnOk, OnErr, option_map, option_copied};
ghost use Rattle.rt_model.specs.Setup.{IsSetup};
ghost use Rattle.rt_server.specs.Calls.{targets_of};
ghost use Rattle.rt_server.specs.Fresh.{first_replica, first_segments, is_assigned, put_first, with_first_if};
ghost use Rattle.rt_server.specs.Table.{entry_of, file_at, replica_of, target_of, wants_at, with_entry, without};
ghost use Rattle.rt_server.specs.Transition.{transit_due};

use crate::seen::are_targets;
use rt_assign::replicas;
use rt_base::{Instance, Offset, Partition, Sequence};
use rt_entry::{Entry, is_due};
use rt_meta::first;
use rt_model::{IdealEntry, Mode, Setup};
use rt_replica::Replica;
use rt_segment::Sealed;
use std::alloc::{AllocError, Global};
use std::collections::BTreeMap;
use std::marker::Model;

/// The targets that a server has seen, and its entries, by segment.
#[derive(Drop)]
pub(crate) struct Table {
    pub(crate) modes: BTreeMap<(Partition, Sequence), Mode>,
    pub(crate) entries: BTreeMap<(Partition, Sequence), Entry>,
}

impl Model for Table {
    ghost use Rattle.rt_server.specs.Table.{Segments};

    ghost Value = { Segments };

    ghost view = { λ a. record { targets = a.modes.entries; entries = a.entries.entries } };
}

impl Table {
    /// Neither targets nor entries. It takes no memory yet.
    pub(crate) fn new(alloc: Global) -> Table
        ensures { result ≡ record { targets = []; entries = [] } }
    {
        Table {
            modes: BTreeMap::new(alloc),
            entries: BTreeMap::new(alloc),
        }
    }

    /// The first segments of the partitions that an instance holds, each with a started replica. Fails only where memory
    /// is refused.
    pub(crate) fn first(
        alloc: Global,
        setup: &Setup,
        instance: Instance,
    ) -> Result<Table, AllocError>
        requires { IsSetup setup.now }
        ensures { IfOk result (λ table. table ≡ first_segments setup.now instance setup.now.partitions) }
    {
        let mut table = Table::new(alloc);
        for partition in 0..setup.partitions {
            table.add_first(alloc, setup, instance, Partition(partition))?;
        }
        Ok(table)
    }

    /// Adds a partition's first segment with a started replica, where the instance holds one. Fails only where memory is
    /// refused.
    fn add_first(
        &mut self,
        alloc: Global,
        setup: &Setup,
        instance: Instance,
        partition: Partition,
    ) -> Result<(), AllocError>
        requires { IsSetup setup.now }
        ensures { OnOk result (self.new ≡ with_first_if setup.now instance partition self.old) }
    {
        if !is_assigned(alloc, setup, partition, instance)? {
            return Ok(());
        }
        let replica = first_replica(alloc, setup, partition)?;
        self.put_first(partition, replica)
    }

    /// Adds a partition's first segment, CONSUMING, with its replica.
    fn put_first(&mut self, partition: Partition, replica: Replica) -> Result<(), AllocError>
        ensures { OnOk result (self.new ≡ put_first partition replica self.old) }
    {
        self.modes
            .insert((partition, Sequence(0)), Mode::Consuming)?;
        self.insert(partition, Sequence(0), Entry::Replica(replica))
    }

    /// Forgets all entries and targets. Takes no memory.
    pub(crate) fn clear(&mut self)
        ensures { self.new ≡ record { targets = []; entries = [] } }
    {
        self.modes.clear();
        self.entries.clear();
    }

    /// The target that was seen of a segment.
    pub(crate) fn target(&self, partition: Partition, sequence: Sequence) -> Option<Mode>
        ensures { result ≡ target_of self.now partition sequence }
    {
        self.modes.get(&(partition, sequence)).copied()
    }

    /// What there is of a segment.
    pub(crate) fn entry(&self, partition: Partition, sequence: Sequence) -> Option<&Entry>
        ensures { option_copied result ≡ entry_of self.now partition sequence }
    {
        self.entries.get(&(partition, sequence))
    }

    /// The replica of a segment.
    pub(crate) fn replica(&self, partition: Partition, sequence: Sequence) -> Option<&Replica>
        ensures { option_map (λ replica. replica.now) result ≡ replica_of self.now partition sequence }
    {
        match self.entry(partition, sequence) {
            Some(entry) => entry.replica(),
            None => None,
        }
    }

    /// The sealed rows of a committed segment.
    pub(crate) fn sealed(&self, partition: Partition, sequence: Sequence) -> Option<&Sealed>
        ensures { option_map (λ file. file.now) result ≡ file_at (entry_of self.now partition sequence) }
    {
        match self.entry(partition, sequence) {
            Some(entry) => entry.sealed(),
            None => None,
        }
    }

    /// Whether the file of a segment is wanted. Takes no memory.
    pub(crate) fn wants(&self, partition: Partition, sequence: Sequence) -> bool
        ensures { result ≡ wants_at (entry_of self.now partition sequence) }
    {
        match self.entry(partition, sequence) {
            Some(entry) => entry.wants(),
            None => false,
        }
    }

    /// Whether a transition of a segment is due. Takes no memory.
    pub(crate) fn transit_due(&self, partition: Partition, sequence: Sequence) -> bool
        ensures { result ≡ transit_due self.now partition sequence }
    {
        let entry = self.entry(partition, sequence);
        match self.target(partition, sequence) {
            None => entry.is_some(),
            Some(mode) => is_due(mode, entry),
        }
    }

    /// Adds an entry of a segment that has none. Where memory is refused, all is as before.
    pub(crate) fn insert(
        &mut self,
        partition: Partition,
        sequence: Sequence,
        entry: Entry,
    ) -> Result<(), AllocError>
        ensures ok { OnOk result (self.new ≡ with_entry self.old partition sequence entry) }
        ensures err { OnErr result (self.new ≡ self.old) }
    {
        drop(self.entries.insert((partition, sequence), entry)?);
        Ok(())
    }

    /// Takes the entry of a segment out. Takes no memory.
    pub(crate) fn remove(&mut self, partition: Partition, sequence: Sequence)
        ensures { self.new ≡ without self.old partition sequence }
    {
        drop(self.entries.remove(&(partition, sequence)));
    }

    /// Puts the targets of an instance in an ideal state in the place of those that were seen; those that are the same
    /// stay, and take no memory. Where memory is refused, all is as before.
    #[tactic(auto, using(crate::proofs::Targets::same_table))]
    pub(crate) fn see(
        &mut self,
        alloc: Global,
        instance: Instance,
        entries: &[IdealEntry],
    ) -> Result<(), AllocError>
        ensures ok { OnOk result (self.new ≡ record self.old { targets = targets_of instance entries.now }) }
        ensures err { OnErr result (self.new ≡ self.old) }
    {
        if !are_targets(&self.modes, instance, entries) {
            self.modes = targets_of(alloc, instance, entries)?;
        }
        Ok(())
    }
}

/// The targets of an instance. Fails only where memory is refused.
fn targets_of(
    alloc: Global,
    instance: Instance,
    entries: &[IdealEntry],
) -> Result<BTreeMap<(Partition, Sequence), Mode>, AllocError>
    ensures { IfOk result (λ modes. modes.entries ≡ targets_of instance entries.now) }
{
    let mut modes = BTreeMap::new(alloc);
    let mut left = entries.len();
    while left > 0 {
        left -= 1;
        let entry = &entries[left];
        if entry.instance == instance {
            modes.insert((entry.partition, entry.sequence), entry.mode)?;
        }
    }
    Ok(modes)
}

/// A started replica of a partition's first segment. Fails only where memory is refused.
fn first_replica(alloc: Global, setup: &Setup, partition: Partition) -> Result<Replica, AllocError>
    requires { IsSetup setup.now }
    ensures { IfOk result (λ replica. replica ≡ first_replica setup.now partition) }
{
    let sequence = Sequence(0);
    let meta = first(
        alloc,
        setup.table.name.as_str(),
        partition,
        sequence,
        Offset(0),
        setup.start,
    )?;
    Replica::start(alloc, setup, partition, sequence, &meta, setup.start)
}

/// Whether an instance holds a replica of a partition.
fn is_assigned(
    alloc: Global,
    setup: &Setup,
    partition: Partition,
    instance: Instance,
) -> Result<bool, AllocError>
    requires { IsSetup setup.now }
    ensures { IfOk result (λ held. held ≡ is_assigned setup.now partition instance) }
{
    let held = replicas(alloc, partition, setup.table.replication, setup.servers)?;
    Ok(held.as_slice().contains(&instance))
}
