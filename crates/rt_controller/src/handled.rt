ghost use Rattle.std.specs.Prelude.{◌≡◌};
ghost use Rattle.rt_controller.specs.declared.handled.JobRefused.TheVariants.{Memory};

use rt_model::Reply;
use std::alloc::AllocError;
use thiserror::Error;

/// What a controller does with a request.
#[derive(Drop, PartialEq, Eq)]
pub enum Handled {
    Reply(Reply),
    /// It started the job of this number, which ends with the reply.
    Job(u64),
}

/// Why no step of a job was made.
#[derive(Clone, Copy, Debug, PartialEq, Eq, Error)]
pub enum JobRefused {
    /// No unfinished job has the number.
    #[error("no unfinished job has the number")]
    NoJob,
    /// Out of memory; the controller is as before, and nothing was written.
    #[error("out of memory")]
    Memory,
}

impl From<AllocError> for JobRefused {
    ghost from_gives = { λ _ refused. refused ≡ Memory };

    fn from(_error: AllocError) -> JobRefused {
        JobRefused::Memory
    }
}
