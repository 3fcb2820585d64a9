ghost use Rattle.std.specs.Prelude.{◌≡◌, IfOk, option_map};
ghost use Rattle.rt_model.specs.Entries.{entries_by};
ghost use Rattle.rt_model.specs.Setup.{IsSetup};
ghost use Rattle.rt_server.specs.Calls.{InTable, Restarts, SeesIdeal, Transits, answered_by, crashed};
ghost use Rattle.rt_server.specs.Download.{Downloads};
ghost use Rattle.rt_server.specs.Fresh.{fresh};
ghost use Rattle.rt_server.specs.Past.{HasHistory, StartsWithItsNode};
ghost use Rattle.rt_server.specs.Table.{entry_of, file_at, replica_of, wants_at};
ghost use Rattle.rt_server.specs.Transition.{transit_due};

use crate::table::Table;
use rt_base::{Instance, Moment, Partition, Sequence};
use rt_deep::DeepStore;
use rt_entry::{ServerRefused, metadata_in};
use rt_lists::Copied;
use rt_model::{IdealEntry, Key, Node, ReplicaState, Seen, Setup};
use rt_msgs::Numbers;
use rt_replica::Replica;
use rt_segment::Sealed;
use rt_store::{Store, StoreRefused};
use std::alloc::{AllocError, Global};
use std::marker::Model;

/// One server of a cluster.
///
/// It keeps for each segment the target that it last saw in the ideal state, and at most one entry: a replica, or a
/// committed segment with its file or wanting it. A call that is refused changes nothing.
#[derive(Drop)]
pub struct Server {
    pub(crate) setup: Setup,
    pub(crate) numbers: Numbers,
    pub(crate) table: Table,
}

impl Model for Server {
    ghost use Rattle.rt_server.specs.Table.{ServerState};
    ghost use Rattle.rt_server.specs.Kept.{IsServer};

    ghost Value = { ServerState };

    ghost view = { λ a. record { setup = a.setup; numbers = a.numbers; table = a.table } };

    ghost invariant = { λ a. IsServer a.setup a.table };
}

impl Server {
    /// A server in incarnation 0 that has seen the first ideal state, with a started replica of each first segment that
    /// it holds. Fails only where memory is refused.
    #[tactic(auto, using(crate::proofs::Kept::fresh_is))]
    pub fn make(alloc: Global, setup: &Setup, instance: Instance) -> Result<Server, AllocError>
        requires { IsSetup setup.now }
        ensures { IfOk result (λ server. server ≡ fresh setup.now instance) }
    {
        let table = Table::first(alloc, setup, instance)?;
        let setup = setup.copied(alloc)?;
        Ok(Server {
            setup,
            numbers: Numbers::make(instance, 0),
            table,
        })
    }

    /// Reads the ideal state, takes its targets in the place of those that were seen before, and answers its version.
    #[tactic(auto, using(crate::proofs::Kept::targets_are, crate::proofs::Steps::sees_ok, crate::proofs::Steps::sees_refused, crate::proofs::Steps::sees_memory))]
    pub fn see_ideal<T: Store>(
        &mut self,
        alloc: Global,
        store: &mut T,
    ) -> Result<u64, ServerRefused>
        requires { HasHistory self.old (T.meaning store.old) }
        ensures step { SeesIdeal (T.meaning store.old) (T.meaning store.new) self.old self.new result }
    {
        let seen = state_in(store.read(alloc, Key::Ideal))?;
        let instance = self.numbers.upcoming().instance;
        self.table.see(alloc, instance, targets_in(&seen.node))?;
        Ok(seen.version)
    }

    /// Moves a segment to its target, by its metadata, and answers its state after that; NotDue where it stands as it
    /// should. An entry without a target goes, and nothing is read.
    #[tactic(auto, using(crate::proofs::Kept::transited_is, crate::proofs::Kept::left_is, crate::proofs::Past::may_learn, crate::proofs::Steps::transits_not_due, crate::proofs::Steps::transits_gone, crate::proofs::Steps::transits_ok, crate::proofs::Steps::transits_refused, crate::proofs::Steps::transits_memory))]
    pub fn transit<T: Store>(
        &mut self,
        alloc: Global,
        partition: Partition,
        sequence: Sequence,
        now: Moment,
        store: &mut T,
    ) -> Result<ReplicaState, ServerRefused>
        requires history { HasHistory self.old (T.meaning store.old) }
        requires start { StartsWithItsNode self.old (T.meaning store.old) partition sequence }
        ensures step { Transits (T.meaning store.old) (T.meaning store.new) self.old self.new partition sequence now result }
    {
        if !self.table.transit_due(partition, sequence) {
            return Err(ServerRefused::NotDue);
        }
        let Some(mode) = self.table.target(partition, sequence) else {
            return Ok(self.table.leave(partition, sequence));
        };
        let seen = metadata_in(store.read(alloc, Key::Meta(partition, sequence)))?;
        let state = self
            .table
            .transit(alloc, &self.setup, partition, sequence, now, mode, seen)?;
        Ok(state)
    }

    /// Loads the wanted file of a segment, and answers the number of its rows; NotDue where none is wanted. BadFile where
    /// the file isn't that of the commit, or hasn't the table's columns; it is then still wanted.
    #[tactic(auto, using(crate::proofs::Loaded::downloaded_is))]
    pub fn download<D: DeepStore>(
        &mut self,
        alloc: Global,
        partition: Partition,
        sequence: Sequence,
        deep: &mut D,
    ) -> Result<u32, ServerRefused>
        ensures step { Downloads (D.meaning deep.old) (D.meaning deep.new) self.old.setup.schema self.old.table self.new.table partition sequence result }
        ensures others { InTable self.old self.new }
    {
        self.table
            .download(alloc, &self.setup.schema, partition, sequence, deep)
    }

    /// Forgets all entries and targets. Takes no memory.
    #[tactic(auto, using(crate::proofs::Kept::crashed_is))]
    pub fn crash(&mut self)
        ensures { self.new ≡ crashed self.old }
    {
        self.table.clear();
    }

    /// Writes the server's boot node, and begins the incarnation that its version is, which is answered.
    #[tactic(auto, using(crate::proofs::Steps::restarts_ok, crate::proofs::Steps::restarts_refused))]
    pub fn restart<T: Store>(&mut self, alloc: Global, store: &mut T) -> Result<u64, ServerRefused>
        ensures step { Restarts (T.meaning store.old) (T.meaning store.new) self.old self.new result }
    {
        let instance = self.numbers.upcoming().instance;
        let version = version_in(store.bump(alloc, instance))?;
        self.numbers = Numbers::make(instance, version);
        Ok(version)
    }

    /// The replica of a segment.
    pub fn replica(&self, partition: Partition, sequence: Sequence) -> Option<&Replica>
        ensures { option_map (λ replica. replica.now) result ≡ replica_of self.now.table partition sequence }
    {
        self.table.replica(partition, sequence)
    }

    /// The file of a sealed committed segment.
    pub fn sealed(&self, partition: Partition, sequence: Sequence) -> Option<&Sealed>
        ensures { option_map (λ file. file.now) result ≡ file_at (entry_of self.now.table partition sequence) }
    {
        self.table.sealed(partition, sequence)
    }

    /// Whether the transition of a segment is due. Takes no memory.
    pub fn transit_due(&self, partition: Partition, sequence: Sequence) -> bool
        ensures { result ≡ transit_due self.now.table partition sequence }
    {
        self.table.transit_due(partition, sequence)
    }

    /// Whether the file of a segment is wanted. Takes no memory.
    pub fn wants(&self, partition: Partition, sequence: Sequence) -> bool
        ensures { result ≡ wants_at (entry_of self.now.table partition sequence) }
    {
        self.table.wants(partition, sequence)
    }

    /// The number of requests made in this incarnation.
    pub fn made(&self) -> u64
        ensures { result ≡ self.now.numbers.made }
    {
        self.numbers.made()
    }
}

/// The ideal state that was read.
fn state_in(answer: Result<Seen, StoreRefused>) -> Result<Seen, ServerRefused>
    ensures { result ≡ answered_by answer }
{
    match answer {
        Ok(seen) => Ok(seen),
        Err(StoreRefused::Memory) => Err(ServerRefused::Memory),
        Err(_) => Err(ServerRefused::StoreFault),
    }
}

/// The version that was written.
fn version_in(answer: Result<u64, StoreRefused>) -> Result<u64, ServerRefused>
    ensures { result ≡ answered_by answer }
{
    match answer {
        Ok(version) => Ok(version),
        Err(StoreRefused::Memory) => Err(ServerRefused::Memory),
        Err(_) => Err(ServerRefused::StoreFault),
    }
}

/// The entries of an ideal state.
fn targets_in(node: &Node) -> &[IdealEntry]
    ensures { result.now ≡ entries_by node.now }
{
    match node {
        Node::Ideal(state) => state.entries.as_slice(),
        _ => &[],
    }
}
