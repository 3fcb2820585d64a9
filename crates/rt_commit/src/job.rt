ghost use Rattle.std.specs.Prelude.{◌≤◌, ◌<◌, slice_get};
ghost use Rattle.std.specs.Vec.{vec_len};
ghost use Rattle.rt_base.specs.declared.limits.TheConstants.{LAST_MOMENT};
ghost use Rattle.rt_commit.specs.Steps.{MayStepAt, SlotSteps};

use crate::Assignment;
use crate::found_versions::FoundVersions;
use crate::job_steps::step_from;
use crate::stepped::Stepped;
use crate::work::Work;
use rt_base::{Moment, Offset};
use rt_deep::DeepStore;
use rt_lists::Text;
use rt_model::{Asked, Commit, Seen};
use rt_store::Store;
use rt_znodes::entries_of;
use std::alloc::{AllocError, Global};
use std::mem;

/// The step that a job makes next, with what it has read and written so far.
#[derive(Drop)]
pub enum JobStage {
    /// The uploaded file is read: it is to be the segment's, up to the end.
    Check {
        read: Seen,
        end: Offset,
        path: Text,
    },
    /// The segment's metadata is set to Done, at the version that the machine read.
    Done {
        read: Seen,
        commit: Commit,
    },
    /// The next segment's metadata is created.
    Next {
        done: Seen,
    },
    IdealRead {
        work: Work,
        found: FoundVersions,
    },
    IdealSet {
        work: Work,
        found: FoundVersions,
        ideal: Seen,
    },
    Ended,
}

/// A job: its number, what it answers, and how far it is.
#[derive(Drop)]
pub struct Job {
    pub number: u64,
    pub asked: Asked,
    pub stage: JobStage,
}

impl Job {
    ghost use Rattle.std.specs.Prelude.{◌≡◌};
    ghost use Rattle.rt_commit.specs.Calls.{MayCall};
    ghost use Rattle.rt_commit.specs.Job.{commits, job_call, job_sets};
    ghost use Rattle.rt_commit.specs.Steps.{JobSteps};

    /// The job's next step: one call of a store. Fails only where memory is refused; the job is then as before, and
    /// nothing was written.
    #[tactic(auto, using(crate::proofs::Parts::job_steps))]
    pub(crate) fn step<S: Store, D: DeepStore>(
        &mut self,
        alloc: Global,
        assignment: &Assignment,
        now: Moment,
        store: &mut S,
        deep: &mut D,
    ) -> Result<Stepped, AllocError>
        requires sequence { self.old.asked.sequence.0 < 4294967294 }
        requires moment { now.0 ≤ LAST_MOMENT }
        requires may { MayCall (S.meaning store.old).seen (job_call assignment.now self.old now) }
        ensures { JobSteps (S.meaning store.old) (S.meaning store.new) (D.meaning deep.old) (D.meaning deep.new)
            assignment.now self.old now self.new result }
    {
        let stage = mem::replace(&mut self.stage, JobStage::Ended);
        let (stage, did) = step_from(stage, alloc, assignment, self.asked, now, store, deep);
        self.stage = stage;
        did
    }

    /// Whether the job commits its segment. Takes no memory.
    pub fn commits(&self) -> bool
        ensures { result ≡ commits self.now.stage }
    {
        match &self.stage {
            JobStage::Check { .. } => true,
            JobStage::Done { .. } => true,
            JobStage::Next { .. } => true,
            JobStage::IdealRead { work, .. } => work.commits(),
            JobStage::IdealSet { work, .. } => work.commits(),
            JobStage::Ended => false,
        }
    }

    /// The number of entries of the ideal state that the job's next step would set. Takes no memory.
    pub fn sets(&self, assignment: &Assignment) -> Option<u64>
        ensures { result ≡ job_sets assignment.now self.now }
    {
        match &self.stage {
            JobStage::Check { .. } => None,
            JobStage::Done { .. } => None,
            JobStage::Next { .. } => None,
            JobStage::IdealRead { .. } => None,
            JobStage::IdealSet { work, ideal, .. } => {
                Some(work.set_count(assignment, self.asked, entries_of(&ideal.node)))
            }
            JobStage::Ended => None,
        }
    }
}

/// The next step of the job at a place.
pub fn step_at<S: Store, D: DeepStore>(
    jobs: &mut Vec<Job>,
    place: usize,
    alloc: Global,
    assignment: &Assignment,
    now: Moment,
    store: &mut S,
    deep: &mut D,
) -> Result<Stepped, AllocError>
    requires place { place < vec_len jobs.old }
    requires moment { now.0 ≤ LAST_MOMENT }
    requires may { MayStepAt (S.meaning store.old).seen assignment.now now (slice_get jobs.old.items place) }
    ensures { SlotSteps (S.meaning store.old) (S.meaning store.new) (D.meaning deep.old) (D.meaning deep.new)
        assignment.now now place (slice_get jobs.old.items place) jobs.old.items jobs.new.items result }
{
    jobs[place].step(alloc, assignment, now, store, deep)
}
