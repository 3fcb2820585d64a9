ghost use Rattle.std.specs.Prelude.{◌≡◌};
ghost use Rattle.rt_live_controller.specs.Did.{reply_at_once, reply_of_job};

use rt_base::Moment;
use rt_controller::{Handled, JobRefused};
use rt_diary::Diary;
use rt_link::Envelope;
use rt_model::{JobStep, Reply, Request};
use std::alloc::AllocError;

/// What a controller did.
#[derive(Drop)]
pub enum ControllerDid {
    /// It was told that it leads.
    Believed,
    /// It took a request at this moment. Its fronts then showed so many writes behind the starting contents, and so many
    /// files.
    Heard {
        request: Request,
        now: Moment,
        result: Result<Handled, AllocError>,
        told: u64,
        deep_told: u64,
    },
    /// It took an envelope that isn't for it.
    Passed {
        envelope: Envelope,
    },
    /// It made the next step of a job at this moment. Its fronts then showed so many writes and files.
    Worked {
        job: u64,
        now: Moment,
        result: Result<JobStep, JobRefused>,
        told: u64,
        deep_told: u64,
    },
}

impl ControllerDid {
    ghost use Rattle.std.specs.Prelude.{◌<◌, ◌-◌, ◌^◌, [], ◌∷◌, ◌++◌, length};
    ghost use Rattle.rt_live_controller.specs.Did.{reply_in};

    /// Notes it.
    pub(crate) fn note(self, diary: &mut Diary<ControllerDid>)
        requires { length diary.old < 2 ^ 64 - 1 }
        ensures { diary.new ≡ diary.old ++ self ∷ [] }
    {
        diary.note(&self);
    }

    /// Whether memory ran out in it.
    pub(crate) fn ran_out(&self) -> bool {
        match self {
            ControllerDid::Believed => false,
            ControllerDid::Heard { result, .. } => result.is_err(),
            ControllerDid::Passed { .. } => false,
            ControllerDid::Worked { result, .. } => result.is_err(),
        }
    }

    /// Whether it made a step of a job for which memory ran out: nothing has then changed.
    pub(crate) fn is_idle(&self) -> bool {
        match self {
            ControllerDid::Worked { result, .. } => result.is_err(),
            _other => false,
        }
    }

    /// What it answered, where it did.
    pub(crate) fn into_reply(self) -> Option<Reply>
        ensures { result ≡ reply_in self }
    {
        match self {
            ControllerDid::Heard { result, .. } => reply_at_once(result),
            ControllerDid::Worked { result, .. } => reply_of_job(result),
            ControllerDid::Believed => None,
            ControllerDid::Passed { .. } => None,
        }
    }
}

// The answer that a request was given at once.
fn reply_at_once(how: Result<Handled, AllocError>) -> Option<Reply>
    ensures { result ≡ reply_at_once how }
{
    match how {
        Ok(Handled::Reply(reply)) => Some(reply),
        Ok(Handled::Job(_)) => None,
        Err(_) => None,
    }
}

// The answer with which a job ended.
fn reply_of_job(how: Result<JobStep, JobRefused>) -> Option<Reply>
    ensures { result ≡ reply_of_job how }
{
    match how {
        Ok(step) => step.reply,
        Err(_) => None,
    }
}
