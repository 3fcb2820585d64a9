//! The jobs of controllers, step by step.
ghost use Rattle.std.specs.Prelude.{◌≡◌, ◌≤◌, true, length, slice_get, IfOk, OnOk, Some};
ghost use Rattle.rt_events.specs.declared.outcome.Outcome.TheVariants.{Stepped};
ghost use Rattle.rt_base.specs.declared.limits.TheConstants.{LAST_MOMENT};
ghost use Rattle.rt_model.specs.Starting.{Starting};
ghost use Rattle.rt_controller.specs.IsController.{IsController};
ghost use Rattle.rt_nodes.specs.declared.controller_node.ControllerNode.{ControllerNode};
ghost use Rattle.rt_state.specs.declared.cost.Cost.{Cost as ACost};
ghost use Rattle.rt_state.specs.Jobs.{job_due, has_job, JobSteps, job_told, noted_set, stepped};
ghost use Rattle.rt_state.specs.Applying.{Applies};
ghost use Rattle.rt_state.specs.IsSafeWorld.{IsSafeWorld};

use super::messages::keep_reply;
use rt_base::ControllerId;
use rt_controller::JobRefused;
use rt_events::{Outcome, Refusal};
use rt_model::JobStep;
use rt_state::State;
use std::alloc::{AllocError, Global};

/// A controller makes the next step of a job; one that ends sends its reply.
#[tactic(auto, using(rt_state::proofs::NeedsNodes::job_needs, rt_state::proofs::Leading::job_delivered))]
pub(crate) fn job(
    state: &mut State,
    alloc: Global,
    controller: ControllerId,
    job: u64,
) -> Result<Outcome, Refusal>
    requires { IsSafeWorld state.old }
    ensures { Applies state.old (job_due state.old controller job) (JobSteps state.old controller job) state.new result }
{
    let cost = state.job_due(controller, job)?;
    let before = state.store.history().len();
    let step = step_job(state, alloc, controller, job)?;
    state
        .counts
        .note_set(cost, before, state.store.history().len());
    let outcome = job_outcome(state, alloc, step)?;
    state.counts.spend(cost);
    Ok(outcome)
}

// The next step of a job that is there.
#[tactic(auto, using(rt_state::proofs::Leading::job_stepped))]
fn step_job(
    state: &mut State,
    alloc: Global,
    controller: ControllerId,
    job: u64,
) -> Result<JobStep, AllocError>
    requires there { has_job state.old controller job ≡ true }
    requires moment { state.old.moment.0 ≤ LAST_MOMENT }
    requires ready { (n : ControllerNode) → slice_get state.old.controllers controller.0 ≡ Some n
        → (s : Starting) × IsController s state.old.store.writes n.controller }
    ensures stepped { IfOk result (λ step. (cost : ACost) → JobSteps state.old controller job cost
        (stepped (noted_set state.new cost (length state.old.store.writes)) cost step)) }
    ensures counts { OnOk result (state.new.counts ≡ state.old.counts) }
{
    let node = state.controllers.at_mut(controller.0 as usize);
    match node.controller.step_job(alloc, job, state.moment, &mut state.store, &mut state.deep) {
        Ok(step) => Ok(step),
        Err(JobRefused::NoJob) => unreachable!(),
        Err(JobRefused::Memory) => Err(AllocError),
    }
}

// What the step tells, its reply being sent.
fn job_outcome(state: &mut State, alloc: Global, step: JobStep) -> Result<Outcome, AllocError>
    ensures { IfOk result (λ outcome. (state.new, outcome) ≡ job_told state.old step) }
{
    match keep_last(state, alloc, &step) {
        Ok(message) => Ok(Outcome::Stepped { step, message }),
        Err(refused) => {
            drop(step);
            Err(refused)
        }
    }
}

// Keeps a copy of the reply of a step that has one, and gives its number.
fn keep_last(state: &mut State, alloc: Global, step: &JobStep) -> Result<Option<u64>, AllocError>
    ensures { IfOk result (λ message. (state.new, Stepped step.now message) ≡ job_told state.old step.now) }
{
    match &step.reply {
        Some(reply) => {
            let message = keep_reply(state, alloc, reply)?;
            Ok(Some(message))
        }
        None => Ok(None),
    }
}
