ghost use Rattle.std.specs.Prelude.{◌≡◌};

use crate::segment_machine::keep_committing;
use crate::{Handled, JobRefused, SegmentMachine};
use rt_base::{ControllerId, Moment};
use rt_commit::{Assignment, Job};
use rt_deep::DeepStore;
use rt_model::{JobStep, Request, Setup};
use rt_store::Store;
use std::alloc::{AllocError, Global};
use std::marker::Model;

/// A controller: the machines of the segments that it completes, and the jobs that it has started.
#[derive(Drop)]
pub struct Controller {
    pub(crate) id: ControllerId,
    pub(crate) assignment: Assignment,
    pub(crate) leads: bool,
    pub(crate) machines: Vec<SegmentMachine>,
    pub(crate) jobs: Vec<Job>,
    pub(crate) started: u64,
}

impl Model for Controller {
    ghost use Rattle.rt_controller.specs.Controller.{Controlling};

    ghost Value = { Controlling };

    ghost view = { λ a. record {
      id = a.id;
      assigned = a.assignment;
      leads = a.leads;
      machines = a.machines.items;
      jobs = a.jobs.items;
      started = a.started;
    } };
}

impl Controller {
    ghost use Rattle.std.specs.Prelude.{◌≤◌, ◌<◌, ◌^◌, IfOk};
    ghost use Rattle.rt_base.specs.declared.limits.TheConstants.{LAST_MOMENT};
    ghost use Rattle.rt_model.specs.Setup.{IsSetup};
    ghost use Rattle.rt_model.specs.Starting.{Starting};
    ghost use Rattle.rt_commit.specs.Causes.{Rose};
    ghost use Rattle.rt_controller.specs.Causes.{HasFailed, IsFault};
    ghost use Rattle.rt_controller.specs.Controller.{beginning, believing, crashed};
    ghost use Rattle.rt_controller.specs.IsController.{IsController};
    ghost use Rattle.rt_controller.specs.Steps.{Handles, Works};
    ghost use Rattle.rt_controller.specs.Working.{is_open, sets_next};

    /// A controller that doesn't believe that it leads, with no machine and no job, of a cluster within the limits. Fails
    /// only where memory is refused.
    pub fn make(alloc: Global, id: ControllerId, setup: &Setup) -> Result<Controller, AllocError>
        requires { IsSetup setup.now }
        ensures { IfOk result (λ controller. controller ≡ beginning id setup.now) }
    {
        Ok(Controller {
            id,
            assignment: Assignment::of(alloc, setup)?,
            leads: false,
            machines: Vec::new(alloc),
            jobs: Vec::new(alloc),
            started: 0,
        })
    }

    /// Tells the controller whether it leads. Without the belief it drops every machine that isn't COMMITTING, and its jobs
    /// go on. Takes no memory.
    pub fn believe(&mut self, leads: bool)
        ensures { self.new ≡ believing self.old leads }
    {
        self.leads = leads;
        if !leads {
            keep_committing(&mut self.machines);
        }
    }

    /// Drops machines, jobs and the belief; the numbers of jobs go on from where they were. Takes no memory.
    pub fn crash(&mut self)
        ensures { self.new ≡ crashed self.old }
    {
        self.leads = false;
        self.machines.clear();
        self.jobs.clear();
    }

    /// Whether the controller believes that it leads.
    pub fn believes(&self) -> bool
        ensures { result ≡ self.now.leads }
    {
        self.leads
    }

    /// The number of jobs started since the controller was made.
    pub fn started(&self) -> u64
        ensures { result ≡ self.now.started }
    {
        self.started
    }

    /// Whether an unfinished job has this number. Takes no memory.
    pub fn is_open(&self, job: u64) -> bool
        ensures { result ≡ is_open self.now job }
    {
        self.job_place(job).is_some()
    }

    /// The number of entries of the ideal state that the job's next step would set; none where no unfinished job has this
    /// number, or that step isn't an `IdealSet`. Takes no memory.
    pub fn sets(&self, job: u64) -> Option<u64>
        ensures { result ≡ sets_next self.now job }
    {
        match self.job_place(job) {
            Some(place) => self.jobs[place].sets(&self.assignment),
            None => None,
        }
    }

    /// Answers a request at `now`, or starts a job that ends with the answer. It makes one call of a store at most. It needs
    /// fewer than 2^63 jobs started. Fails only where memory is refused; the controller is then as before, and nothing was
    /// written.
    pub fn on_request<S: Store, D: DeepStore>(
        &mut self,
        alloc: Global,
        request: &Request,
        now: Moment,
        store: &mut S,
        deep: &mut D,
    ) -> Result<Handled, AllocError>
        requires { self.old.started < 2 ^ 63 }
        ensures step { Handles (S.meaning store.old) (S.meaning store.new) (D.meaning deep.old) (D.meaning deep.new)
            self.old request.now now self.new result }
        ensures ready { (s : Starting) → request.now.partition.0 < s.partitions → IsController s (S.meaning store.old).seen self.old
            → IsController s (S.meaning store.new).seen self.new }
        ensures failed { IfOk result (λ what. IsFault what
            → Rose (S.meaning store.old) (S.meaning store.new) (D.meaning deep.old) (D.meaning deep.new)) }
    {
        self.take_request(alloc, request, now, store, deep)
    }

    /// Makes the next step of a job at `now`, which is no later than the end of the year 9999: one call of a store. Fails
    /// where no unfinished job has the number, or memory is refused; the controller is then as before, and nothing was
    /// written.
    pub fn step_job<S: Store, D: DeepStore>(
        &mut self,
        alloc: Global,
        job: u64,
        now: Moment,
        store: &mut S,
        deep: &mut D,
    ) -> Result<JobStep, JobRefused>
        requires moment { now.0 ≤ LAST_MOMENT }
        requires ready { (s : Starting) × IsController s (S.meaning store.old).seen self.old }
        ensures step { Works (S.meaning store.old) (S.meaning store.new) (D.meaning deep.old) (D.meaning deep.new)
            self.old job now self.new result }
        ensures ready { (s : Starting) → IsController s (S.meaning store.old).seen self.old
            → IsController s (S.meaning store.new).seen self.new }
        ensures failed { IfOk result (λ step. HasFailed step
            → Rose (S.meaning store.old) (S.meaning store.new) (D.meaning deep.old) (D.meaning deep.new)) }
    {
        self.take_step(alloc, job, now, store, deep)
    }
}
