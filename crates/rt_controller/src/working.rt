//! A controller makes the next step of one of its jobs.
ghost use Rattle.std.specs.Prelude.{◌≡◌};

use crate::answers::reply_to;
use crate::segment_machine::drop_machine;
use crate::{Controller, JobRefused};
use rt_base::Moment;
use rt_commit::{Stepped, step_at};
use rt_deep::DeepStore;
use rt_model::{Asked, JobStep};
use rt_store::Store;
use std::alloc::{AllocError, Global};

impl Controller {
    ghost use Rattle.std.specs.Prelude.{◌≤◌, ◌<◌, IfSome, length, slice_get};
    ghost use Rattle.rt_base.specs.declared.limits.TheConstants.{LAST_MOMENT};
    ghost use Rattle.rt_commit.specs.Job.{commits};
    ghost use Rattle.rt_commit.specs.Steps.{MayStepAt};
    ghost use Rattle.rt_controller.specs.Steps.{MayStepOn, Works, WorksAt};
    ghost use Rattle.rt_controller.specs.Working.{job_place, settled};

    pub(crate) fn take_step<S: Store, D: DeepStore>(
        &mut self,
        alloc: Global,
        job: u64,
        now: Moment,
        store: &mut S,
        deep: &mut D,
    ) -> Result<JobStep, JobRefused>
        requires moment { now.0 ≤ LAST_MOMENT }
        requires may { MayStepOn (S.meaning store.old).seen self.old now (job_place self.old.jobs job) }
        ensures { Works (S.meaning store.old) (S.meaning store.new) (D.meaning deep.old) (D.meaning deep.new)
            self.old job now self.new result }
    {
        match self.job_place(job) {
            Some(place) => Ok(self.work(alloc, place, now, store, deep)?),
            None => Err(JobRefused::NoJob),
        }
    }

    /// The place of the unfinished job of a number.
    pub(crate) fn job_place(&self, job: u64) -> Option<usize>
        ensures { result ≡ job_place self.now.jobs job }
    {
        self.jobs.iter().position(|open| open.number == job)
    }

    /// What the job at a place answers, and whether it commits its segment.
    fn job_of(&self, place: usize) -> (Asked, bool)
        requires { place < length self.now.jobs }
        ensures { IfSome (slice_get self.now.jobs place) (λ j. (result.0 ≡ j.asked) × (result.1 ≡ commits j.stage)) }
    {
        (self.jobs[place].asked, self.jobs[place].commits())
    }

    /// The next step of the job at a place.
    #[tactic(auto, using(crate::proofs::Parts::works_place))]
    fn work<S: Store, D: DeepStore>(
        &mut self,
        alloc: Global,
        place: usize,
        now: Moment,
        store: &mut S,
        deep: &mut D,
    ) -> Result<JobStep, AllocError>
        requires place { place < length self.old.jobs }
        requires moment { now.0 ≤ LAST_MOMENT }
        requires may { MayStepAt (S.meaning store.old).seen self.old.assigned now (slice_get self.old.jobs place) }
        ensures { WorksAt (S.meaning store.old) (S.meaning store.new) (D.meaning deep.old) (D.meaning deep.new)
            self.old now place self.new result }
    {
        let (asked, commits) = self.job_of(place);
        let did = step_at(
            &mut self.jobs,
            place,
            alloc,
            &self.assignment,
            now,
            store,
            deep,
        )?;
        Ok(self.settle(place, asked, commits, did))
    }

    /// Lets a job that ended go, with the machine of one that commits.
    fn settle(&mut self, place: usize, asked: Asked, commits: bool, did: Stepped) -> JobStep
        requires { place < length self.old.jobs }
        ensures { settled self.old place asked commits did did.status ≡ record { controller = self.new; step = result } }
    {
        let Stepped {
            step,
            outcome,
            status,
        } = did;
        match status {
            Some(status) => {
                let _ = self.jobs.remove(place);
                if commits {
                    drop_machine(&mut self.machines, asked);
                }
                JobStep {
                    step,
                    outcome,
                    reply: Some(reply_to(asked, status)),
                }
            }
            None => JobStep {
                step,
                outcome,
                reply: None,
            },
        }
    }
}
