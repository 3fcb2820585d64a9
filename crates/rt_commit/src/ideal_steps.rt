ghost use Rattle.std.specs.Prelude.{◌<◌};
ghost use Rattle.rt_base.specs.declared.numbers.Moment.{Moment};
ghost use Rattle.rt_model.specs.Lawful.{IsLawful, set};
ghost use Rattle.rt_commit.specs.declared.job.JobStage.TheVariants as stage;
ghost use Rattle.rt_commit.specs.Assignment.{Assigned};
ghost use Rattle.rt_commit.specs.Calls.{DeepMeaning};
ghost use Rattle.rt_commit.specs.Job.{after_read, after_set, ideal_node, tries_again};
ghost use Rattle.rt_commit.specs.Steps.{StageSteps, Checked, Gives};

use crate::Assignment;
use crate::found_versions::FoundVersions;
use crate::job::JobStage;
use crate::stepped::{Stepped, ended, failed, went};
use crate::work::Work;
use rt_model::{Asked, FailCause, Key, ReplyStatus, Seen, StepName, StepOutcome};
use rt_store::{Store, StoreRefused};
use rt_znodes::entries_of;
use std::alloc::{AllocError, Global};

/// Reads the ideal state, and ends the job where it needs no change.
#[tactic(auto, using(crate::proofs::RunningOut::ideal_ran_out))]
pub(crate) fn read_ideal<S: Store>(
    alloc: Global,
    asked: Asked,
    work: Work,
    found: FoundVersions,
    store: &mut S,
) -> (JobStage, Result<Stepped, AllocError>)
    ensures { (d : DeepMeaning) (a : Assigned) (now : Moment)
        → StageSteps (S.meaning store.old) (S.meaning store.new) d d a asked now (stage.IdealRead work found) result.0 result.1 }
{
    let answer = store.read(alloc, Key::Ideal);
    after_read(alloc, asked, work, found, answer)
}

fn after_read(
    alloc: Global,
    asked: Asked,
    work: Work,
    found: FoundVersions,
    answer: Result<Seen, StoreRefused>,
) -> (JobStage, Result<Stepped, AllocError>)
    ensures { Gives (stage.IdealRead work found) (after_read asked work found answer) result.0 result.1 }
{
    match answer {
        Ok(ideal) => {
            if work.changes(asked, entries_of(&ideal.node)) {
                (
                    JobStage::IdealSet { work, found, ideal },
                    Ok(went(StepName::IdealRead, StepOutcome::Fine)),
                )
            } else {
                let status = work.success(alloc);
                (
                    JobStage::Ended,
                    Ok(ended(StepName::IdealRead, StepOutcome::Same, status)),
                )
            }
        }
        Err(StoreRefused::NoNode) => (JobStage::Ended, Ok(failed(StepName::IdealRead))),
        Err(StoreRefused::Exists { .. }) => (JobStage::Ended, Ok(failed(StepName::IdealRead))),
        Err(StoreRefused::VersionChanged { .. }) => {
            (JobStage::Ended, Ok(failed(StepName::IdealRead)))
        }
        Err(StoreRefused::Failed) => (JobStage::Ended, Ok(failed(StepName::IdealRead))),
        Err(StoreRefused::Memory) => (JobStage::IdealRead { work, found }, Err(AllocError)),
    }
}

/// Sets the ideal state, at the version that was read.
#[tactic(auto, using(crate::proofs::RunningOut::set_ran_out))]
pub(crate) fn set_ideal<S: Store>(
    alloc: Global,
    assignment: &Assignment,
    asked: Asked,
    work: Work,
    found: FoundVersions,
    ideal: Seen,
    store: &mut S,
) -> (JobStage, Result<Stepped, AllocError>)
    requires sequence { asked.sequence.0 < 4294967294 }
    requires may { IsLawful (S.meaning store.old).seen (set ideal (ideal_node assignment.now asked work ideal)) }
    ensures { (d : DeepMeaning) (now : Moment)
        → StageSteps (S.meaning store.old) (S.meaning store.new) d d assignment.now asked now (stage.IdealSet work found ideal) result.0 result.1 }
{
    match work.changed(alloc, assignment, asked, &ideal.node) {
        Ok(node) => {
            let answer = store.compare_and_set(alloc, &ideal, &node);
            after_set(alloc, work, found, ideal, answer)
        }
        Err(refused) => (JobStage::IdealSet { work, found, ideal }, Err(refused)),
    }
}

fn after_set(
    alloc: Global,
    work: Work,
    found: FoundVersions,
    ideal: Seen,
    answer: Result<u64, StoreRefused>,
) -> (JobStage, Result<Stepped, AllocError>)
    ensures { Gives (stage.IdealSet work found ideal) (after_set work found answer) result.0 result.1 }
{
    match answer {
        Ok(_) => {
            let status = work.success(alloc);
            (
                JobStage::Ended,
                Ok(ended(StepName::IdealSet, StepOutcome::Fine, status)),
            )
        }
        Err(StoreRefused::NoNode) => (JobStage::Ended, Ok(failed(StepName::IdealSet))),
        Err(StoreRefused::Exists { .. }) => (JobStage::Ended, Ok(failed(StepName::IdealSet))),
        Err(
            StoreRefused::VersionChanged {
                expected,
                found: version,
            },
        ) => try_again(work, found, expected, version),
        Err(StoreRefused::Failed) => (JobStage::Ended, Ok(failed(StepName::IdealSet))),
        Err(StoreRefused::Memory) => (JobStage::IdealSet { work, found, ideal }, Err(AllocError)),
    }
}

/// The job reads the ideal state again, but ends at the tenth version that it didn't expect.
fn try_again(
    work: Work,
    found: FoundVersions,
    expected: u64,
    version: u64,
) -> (JobStage, Result<Stepped, AllocError>)
    ensures { Checked (tries_again work found expected version) result.0 result.1 }
{
    let outcome = StepOutcome::Changed {
        expected,
        found: version,
    };
    match found.with(version) {
        Ok(found) => (
            JobStage::IdealRead { work, found },
            Ok(went(StepName::IdealSet, outcome)),
        ),
        Err(versions) => {
            let status = ReplyStatus::Failed(FailCause::IdealChanged(versions));
            (
                JobStage::Ended,
                Ok(ended(StepName::IdealSet, outcome, status)),
            )
        }
    }
}
