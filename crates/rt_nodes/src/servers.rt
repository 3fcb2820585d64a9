//! A server sees the ideal state, moves its segments, and loads files.
ghost use Rattle.std.specs.Prelude.{◌≡◌, true, Some, IfOk, OnErr};
ghost use Rattle.rt_entry.specs.declared.refused.ServerRefused.TheVariants.{Memory};
ghost use Rattle.rt_server.specs.Past.{HasHistory, StartsWithItsNode};
ghost use Rattle.rt_server.specs.Table.{entry_of, wants_at as entry_wants};
ghost use Rattle.rt_server.specs.Transition.{transit_due as server_moves};
ghost use Rattle.rt_store.specs.Memory.{means};
ghost use Rattle.rt_nodes.specs.Refused.{IsFailure, failed_by, OnlyRead, OnlyGot};
ghost use Rattle.rt_nodes.specs.Servers.{NodeSees, NodeMoves, NodeLoads, FindsItsFile};

use crate::ServerNode;
use rt_base::{Moment, Partition, Sequence};
use rt_deep::MemoryDeep;
use rt_events::Outcome;
use rt_server::ServerRefused;
use rt_store::MemoryStore;
use std::alloc::{AllocError, Global};

impl ServerNode {
    /// It reads the ideal state, unless the store fails. Fails only where memory is refused, and is then as it was.
    #[tactic(auto, using(crate::proofs::Failures::sees_fail, crate::proofs::Looks::sees_looks, rt_server::proofs::Unchanged::sees_stay))]
    pub fn see(&mut self, alloc: Global, store: &mut MemoryStore) -> Result<Outcome, AllocError>
        requires { HasHistory self.old.server (means store.old) }
        ensures ok { IfOk result (NodeSees store.old store.new self.old self.new) }
        ensures err { OnErr result ((self.new ≡ self.old) × OnlyRead store.old store.new) }
    {
        match self.server.see_ideal(alloc, store) {
            Ok(version) => Ok(Outcome::SawIdeal(version)),
            Err(refused) => failed(refused),
        }
    }

    /// It moves a segment to what it saw that the ideal state asks, unless the store fails. Fails only where memory is
    /// refused, and is then as it was.
    #[tactic(auto, using(crate::proofs::Failures::transits_fail, crate::proofs::Looks::transits_looks, rt_server::proofs::Unchanged::transits_stay))]
    pub fn transit(
        &mut self,
        alloc: Global,
        partition: Partition,
        sequence: Sequence,
        now: Moment,
        store: &mut MemoryStore,
    ) -> Result<Outcome, AllocError>
        requires history { HasHistory self.old.server (means store.old) }
        requires start { StartsWithItsNode self.old.server (means store.old) partition sequence }
        requires due { server_moves self.old.server.table partition sequence ≡ true }
        ensures ok { IfOk result (NodeMoves partition sequence now store.old store.new self.old self.new) }
        ensures err { OnErr result ((self.new ≡ self.old) × OnlyRead store.old store.new) }
    {
        match self.server.transit(alloc, partition, sequence, now, store) {
            Ok(state) => Ok(Outcome::Stands(state)),
            Err(refused) => failed(refused),
        }
    }

    /// It loads the wanted file of a segment, unless the deep store fails. Fails only where memory is refused, and is then
    /// as it was.
    #[tactic(auto, using(crate::proofs::Failures::downloads_fail, crate::proofs::Looks::downloads_looks, crate::proofs::Unchanged::downloads_whole))]
    pub fn download(
        &mut self,
        alloc: Global,
        partition: Partition,
        sequence: Sequence,
        deep: &mut MemoryDeep,
    ) -> Result<Outcome, AllocError>
        requires due { entry_wants (entry_of self.old.server.table partition sequence) ≡ true }
        requires right { FindsItsFile deep.old self.old.server partition sequence }
        ensures ok { IfOk result (NodeLoads partition sequence deep.old deep.new self.old self.new) }
        ensures err { OnErr result ((self.new ≡ self.old) × OnlyGot deep.old deep.new) }
    {
        match self.server.download(alloc, partition, sequence, deep) {
            Ok(rows) => Ok(Outcome::Loaded(rows)),
            Err(refused) => failed(refused),
        }
    }
}

/// What a server's refused call comes to where it was due: a store failed, or memory ran out.
pub(crate) fn failed(refused: ServerRefused) -> Result<Outcome, AllocError>
    requires { IsFailure refused }
    ensures ok { IfOk result (λ outcome. failed_by refused ≡ Some outcome) }
    ensures err { OnErr result (refused ≡ Memory) }
{
    match refused {
        ServerRefused::StoreFault => Ok(Outcome::Failed),
        ServerRefused::Memory => Err(AllocError),
        ServerRefused::NotDue => unreachable!(),
        ServerRefused::BadFile { .. } => unreachable!(),
    }
}
