ghost use Rattle.std.specs.Prelude.{◌≡◌, Some, None};
ghost use Rattle.rt_model.specs.declared.job_step.StepOutcome.TheVariants as outcome;
ghost use Rattle.rt_model.specs.declared.reply.FailCause.TheVariants as cause;
ghost use Rattle.rt_model.specs.declared.reply.ReplyStatus.TheVariants as status;

use rt_model::{FailCause, ReplyStatus, StepName, StepOutcome};

/// What a job's step did, and the answer with which it ended the job.
#[derive(Drop)]
pub struct Stepped {
    pub step: StepName,
    pub outcome: StepOutcome,
    pub status: Option<ReplyStatus>,
}

/// A step after which the job goes on.
pub(crate) fn went(step: StepName, outcome: StepOutcome) -> Stepped
    ensures { result ≡ record { step = step; outcome = outcome; status = None } }
{
    Stepped {
        step,
        outcome,
        status: None,
    }
}

/// A step that ends the job with an answer.
pub(crate) fn ended(step: StepName, outcome: StepOutcome, status: ReplyStatus) -> Stepped
    ensures { result ≡ record { step = step; outcome = outcome; status = Some status } }
{
    Stepped {
        step,
        outcome,
        status: Some(status),
    }
}

/// A step that ends the job for a fault of its store.
pub(crate) fn failed(step: StepName) -> Stepped
    ensures { result ≡ record { step = step; outcome = outcome.Failed; status = Some (status.Failed cause.StoreFault) } }
{
    ended(
        step,
        StepOutcome::Failed,
        ReplyStatus::Failed(FailCause::StoreFault),
    )
}

/// A step that ends the job, since a node had another version than the one that was read.
pub(crate) fn changed(step: StepName, expected: u64, found: u64) -> Stepped
    ensures { result ≡ record {
      step = step;
      outcome = outcome.Changed expected found;
      status = Some (status.Failed (cause.VersionChanged expected found));
    } }
{
    ended(
        step,
        StepOutcome::Changed { expected, found },
        ReplyStatus::Failed(FailCause::VersionChanged { expected, found }),
    )
}
