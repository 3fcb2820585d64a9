ghost use Rattle.std.specs.Prelude.{◌≤◌, ◌<◌};
ghost use Rattle.rt_base.specs.declared.limits.TheConstants.{LAST_MOMENT};
ghost use Rattle.rt_commit.specs.Calls.{MayCall};
ghost use Rattle.rt_commit.specs.Job.{call_at};
ghost use Rattle.rt_commit.specs.Steps.{StageSteps};

use crate::Assignment;
use crate::check_step::check;
use crate::done_step::set_done;
use crate::ideal_steps::{read_ideal, set_ideal};
use crate::job::JobStage;
use crate::next_step::create_next;
use crate::stepped::Stepped;
use rt_base::Moment;
use rt_deep::DeepStore;
use rt_model::Asked;
use rt_store::Store;
use std::alloc::{AllocError, Global};

/// The step of a job from a stage: one call of a store. The stage after it; where memory is refused, that is the stage
/// before it, and nothing was written.
pub(crate) fn step_from<S: Store, D: DeepStore>(
    stage: JobStage,
    alloc: Global,
    assignment: &Assignment,
    asked: Asked,
    now: Moment,
    store: &mut S,
    deep: &mut D,
) -> (JobStage, Result<Stepped, AllocError>)
    requires sequence { asked.sequence.0 < 4294967294 }
    requires moment { now.0 ≤ LAST_MOMENT }
    requires may { MayCall (S.meaning store.old).seen (call_at assignment.now asked now stage) }
    ensures { StageSteps (S.meaning store.old) (S.meaning store.new) (D.meaning deep.old) (D.meaning deep.new)
        assignment.now asked now stage result.0 result.1 }
{
    match stage {
        JobStage::Check { read, end, path } => check(alloc, asked, read, end, path, deep),
        JobStage::Done { read, commit } => set_done(alloc, read, commit, now, store),
        JobStage::Next { done } => create_next(alloc, assignment, asked, done, now, store),
        JobStage::IdealRead { work, found } => read_ideal(alloc, asked, work, found, store),
        JobStage::IdealSet { work, found, ideal } => {
            set_ideal(alloc, assignment, asked, work, found, ideal, store)
        }
        JobStage::Ended => (JobStage::Ended, Err(AllocError)),
    }
}
