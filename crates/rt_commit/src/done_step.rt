ghost use Rattle.std.specs.Prelude.{◌≡◌, IfOk};
ghost use Rattle.rt_base.specs.declared.numbers.Moment.{Moment};
ghost use Rattle.rt_model.specs.declared.asked.Asked.{Asked};
ghost use Rattle.rt_model.specs.Lawful.{IsLawful, set};
ghost use Rattle.rt_commit.specs.declared.job.JobStage.TheVariants as stage;
ghost use Rattle.rt_commit.specs.Assignment.{Assigned};
ghost use Rattle.rt_commit.specs.Calls.{DeepMeaning};
ghost use Rattle.rt_commit.specs.Job.{after_done, done_node};
ghost use Rattle.rt_commit.specs.Steps.{StageSteps, Gives};

use crate::job::JobStage;
use crate::stepped::{Stepped, changed, ended, failed, went};
use rt_base::Moment;
use rt_lists::Copied;
use rt_meta::done_of;
use rt_model::{Commit, FailCause, Node, ReplyStatus, Seen, StepName, StepOutcome};
use rt_store::{Store, StoreRefused};
use rt_znodes::{meta_of, no_meta};
use std::alloc::{AllocError, Global};

/// Sets the segment's metadata to Done, at the version that the machine read.
#[tactic(auto, using(crate::proofs::RunningOut::done_ran_out))]
pub(crate) fn set_done<S: Store>(
    alloc: Global,
    read: Seen,
    commit: Commit,
    now: Moment,
    store: &mut S,
) -> (JobStage, Result<Stepped, AllocError>)
    requires may { IsLawful (S.meaning store.old).seen (set read (done_node read commit now)) }
    ensures { (d : DeepMeaning) (a : Assigned) (q : Asked)
        → StageSteps (S.meaning store.old) (S.meaning store.new) d d a q now (stage.Done read commit) result.0 result.1 }
{
    match done_node(alloc, &read, &commit, now) {
        Ok(node) => {
            let answer = store.compare_and_set(alloc, &read, &node);
            after_done(read, commit, node, answer)
        }
        Err(refused) => (JobStage::Done { read, commit }, Err(refused)),
    }
}

/// The segment's metadata as it becomes Done. Fails only where memory is refused.
fn done_node(alloc: Global, read: &Seen, commit: &Commit, now: Moment) -> Result<Node, AllocError>
    ensures { IfOk result (λ node. node ≡ done_node read.now commit.now now) }
{
    let none = no_meta(alloc);
    let meta = meta_of(&read.node, &none);
    let commit = commit.copied(alloc)?;
    Ok(Node::Meta(done_of(alloc, meta, commit, now)?))
}

fn after_done(
    read: Seen,
    commit: Commit,
    node: Node,
    answer: Result<u64, StoreRefused>,
) -> (JobStage, Result<Stepped, AllocError>)
    ensures { (now : Moment) → node ≡ done_node read commit now
        → Gives (stage.Done read commit) (after_done read commit now answer) result.0 result.1 }
{
    match answer {
        Ok(version) => {
            let done = Seen {
                key: read.key,
                version,
                node,
            };
            (
                JobStage::Next { done },
                Ok(went(StepName::Done, StepOutcome::Fine)),
            )
        }
        Err(StoreRefused::NoNode) => (
            JobStage::Ended,
            Ok(ended(
                StepName::Done,
                StepOutcome::NoNode,
                ReplyStatus::Failed(FailCause::NoSegment),
            )),
        ),
        Err(StoreRefused::Exists { .. }) => (JobStage::Ended, Ok(failed(StepName::Done))),
        Err(StoreRefused::VersionChanged { expected, found }) => (
            JobStage::Ended,
            Ok(changed(StepName::Done, expected, found)),
        ),
        Err(StoreRefused::Failed) => (JobStage::Ended, Ok(failed(StepName::Done))),
        Err(StoreRefused::Memory) => (JobStage::Done { read, commit }, Err(AllocError)),
    }
}
