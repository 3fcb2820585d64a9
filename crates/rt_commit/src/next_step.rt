ghost use Rattle.std.specs.Prelude.{◌≡◌, ◌≤◌, ◌<◌, []};
ghost use Rattle.rt_base.specs.declared.limits.TheConstants.{LAST_MOMENT};
ghost use Rattle.rt_model.specs.Lawful.{IsLawful, create_after};
ghost use Rattle.rt_commit.specs.declared.job.JobStage.TheVariants as stage;
ghost use Rattle.rt_commit.specs.declared.work.Work.TheVariants as work;
ghost use Rattle.rt_commit.specs.Calls.{DeepMeaning};
ghost use Rattle.rt_commit.specs.Job.{after_next, next_key, next_node};
ghost use Rattle.rt_commit.specs.Steps.{StageSteps, Gives};

use crate::Assignment;
use crate::found_versions::FoundVersions;
use crate::job::JobStage;
use crate::stepped::{Stepped, changed, ended, failed, went};
use crate::work::Work;
use rt_base::{Moment, Sequence};
use rt_meta::first;
use rt_model::{Asked, Key, Node, ReplyStatus, Seen, StepName, StepOutcome};
use rt_store::{Store, StoreRefused};
use rt_znodes::{end_of, seen_meta_of};
use std::alloc::{AllocError, Global};

/// Creates the next segment, which starts where the Done one ends.
#[tactic(auto, using(crate::proofs::RunningOut::next_ran_out))]
pub(crate) fn create_next<S: Store>(
    alloc: Global,
    assignment: &Assignment,
    asked: Asked,
    done: Seen,
    now: Moment,
    store: &mut S,
) -> (JobStage, Result<Stepped, AllocError>)
    requires sequence { asked.sequence.0 < 4294967294 }
    requires moment { now.0 ≤ LAST_MOMENT }
    requires may { IsLawful (S.meaning store.old).seen (create_after (next_key asked) (next_node assignment.now asked now done) done) }
    ensures { (d : DeepMeaning)
        → StageSteps (S.meaning store.old) (S.meaning store.new) d d assignment.now asked now (stage.Next done) result.0 result.1 }
{
    let sequence = Sequence(asked.sequence.0 + 1);
    let start = end_of(&done.node);
    match first(
        alloc,
        assignment.table(),
        asked.partition,
        sequence,
        start,
        now,
    ) {
        Ok(meta) => {
            let key = Key::Meta(asked.partition, sequence);
            let node = Node::Meta(meta);
            let answer = store.create_after(alloc, key, &node, &done);
            after_next(alloc, done, answer)
        }
        Err(refused) => (JobStage::Next { done }, Err(refused)),
    }
}

fn after_next(
    alloc: Global,
    done: Seen,
    answer: Result<(), StoreRefused>,
) -> (JobStage, Result<Stepped, AllocError>)
    ensures { Gives (stage.Next done) (after_next done answer) result.0 result.1 }
{
    match answer {
        Ok(()) => (
            ideal_next(done),
            Ok(went(StepName::Next, StepOutcome::Fine)),
        ),
        Err(StoreRefused::NoNode) => {
            let status = ReplyStatus::CommitSuccess(seen_meta_of(alloc, done));
            (
                JobStage::Ended,
                Ok(ended(StepName::Next, StepOutcome::Gone, status)),
            )
        }
        Err(StoreRefused::Exists { .. }) => (
            ideal_next(done),
            Ok(went(StepName::Next, StepOutcome::Exists)),
        ),
        Err(StoreRefused::VersionChanged { expected, found }) => (
            JobStage::Ended,
            Ok(changed(StepName::Next, expected, found)),
        ),
        Err(StoreRefused::Failed) => (JobStage::Ended, Ok(failed(StepName::Next))),
        Err(StoreRefused::Memory) => (JobStage::Next { done }, Err(AllocError)),
    }
}

/// The job reads the ideal state next, for the first time.
fn ideal_next(done: Seen) -> JobStage
    ensures { result ≡ stage.IdealRead (work.Commit done) [] }
{
    JobStage::IdealRead {
        work: Work::Commit { done },
        found: FoundVersions::new(),
    }
}
