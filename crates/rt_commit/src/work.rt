use crate::Assignment;
use crate::changes::{commit_changes, committed_count, offline_changes};
use rt_ideal::{commit_step, set_offline};
use rt_lists::Items;
use rt_model::{Asked, IdealEntry, IdealState, Node, ReplyStatus, Seen};
use rt_znodes::{seen_meta_of, state_of};
use std::alloc::{AllocError, Global};

/// What a job does to the ideal state.
#[derive(Drop)]
pub enum Work {
    /// It commits the segment, whose metadata it has set to this.
    Commit { done: Seen },
    /// It turns the instance of its request OFFLINE.
    Offline,
}

impl Work {
    ghost use Rattle.std.specs.Prelude.{◌≡◌, ◌<◌, IfOk};
    ghost use Rattle.rt_model.specs.declared.node.Node.TheVariants as node;
    ghost use Rattle.rt_model.specs.Entries.{entries_by};
    ghost use Rattle.rt_commit.specs.Job.{is_commit, changes, changed_entries, set_count, success};

    /// Whether the job commits its segment.
    pub(crate) fn commits(&self) -> bool
        ensures { result ≡ is_commit self.now }
    {
        match self {
            Work::Commit { .. } => true,
            Work::Offline => false,
        }
    }

    /// Whether the job changes something of the ideal state.
    pub(crate) fn changes(&self, asked: Asked, entries: &[IdealEntry]) -> bool
        ensures { result ≡ changes asked self.now entries.now }
    {
        match self {
            Work::Commit { .. } => commit_changes(entries, asked.partition, asked.sequence),
            Work::Offline => offline_changes(
                entries,
                asked.partition,
                asked.sequence,
                asked.number.instance,
            ),
        }
    }

    /// The ideal state as the job changes it. Fails only where memory is refused.
    pub(crate) fn changed(
        &self,
        alloc: Global,
        assignment: &Assignment,
        asked: Asked,
        ideal: &Node,
    ) -> Result<Node, AllocError>
        requires { asked.sequence.0 < 4294967294 }
        ensures { IfOk result (λ changed. changed ≡ node.Ideal (record { entries = changed_entries assignment.now asked self.now (entries_by ideal.now) })) }
    {
        let empty = IdealState {
            entries: Items::new(alloc),
        };
        let state = state_of(ideal, &empty);
        match self {
            Work::Commit { .. } => {
                let replicas = assignment.replicas(alloc, asked.partition)?;
                let changed = commit_step(
                    alloc,
                    state,
                    asked.partition,
                    asked.sequence,
                    replicas.as_slice(),
                )?;
                Ok(Node::Ideal(changed))
            }
            Work::Offline => {
                let changed = set_offline(
                    alloc,
                    state,
                    asked.partition,
                    asked.sequence,
                    asked.number.instance,
                )?;
                Ok(Node::Ideal(changed))
            }
        }
    }

    /// The number of entries of the ideal state as the job changes it.
    #[tactic(auto, using(crate::proofs::Counting::committed_counted, crate::proofs::Counting::offline_counted))]
    pub(crate) fn set_count(
        &self,
        assignment: &Assignment,
        asked: Asked,
        entries: &[IdealEntry],
    ) -> u64
        ensures { result ≡ set_count assignment.now asked self.now entries.now }
    {
        match self {
            Work::Commit { .. } => committed_count(
                entries,
                asked.partition,
                asked.sequence,
                assignment.replication(),
            ),
            Work::Offline => entries.len() as u64,
        }
    }

    /// The answer of a job that has done its work.
    pub(crate) fn success(self, alloc: Global) -> ReplyStatus
        ensures { result ≡ success self }
    {
        match self {
            Work::Commit { done } => ReplyStatus::CommitSuccess(seen_meta_of(alloc, done)),
            Work::Offline => ReplyStatus::Processed,
        }
    }
}
