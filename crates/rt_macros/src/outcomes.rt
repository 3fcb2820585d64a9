ghost use Rattle.std.specs.Prelude.{◌≡◌};
ghost use Rattle.rt_macros.specs.Outcomes.{answer_in, asked_in, delivered_in, ended_in, ending, is_served, replied, sent_in, state_in};

use rt_model::{Answer, JobStep, ReplicaState, Reply, ReplyStatus};
use rt_world::Outcome;

/// The answer of a controller, and the number of its message.
#[derive(Drop)]
pub struct Replied {
    pub message: u64,
    pub status: ReplyStatus,
}

/// What a controller does with a request.
#[derive(Drop)]
pub enum Delivered {
    Replied(Replied),
    /// It started this job.
    Started(u64),
    /// It does nothing else.
    Neither,
}

/// The number of the message that was sent.
pub fn sent(outcome: Outcome) -> Option<u64>
    ensures { result ≡ sent_in outcome }
{
    match outcome {
        Outcome::Sent { message, .. } => Some(message),
        other => {
            drop(other);
            None
        }
    }
}

/// What a controller did with a request.
pub fn handled(outcome: Outcome) -> Delivered
    ensures { result ≡ delivered_in outcome }
{
    match outcome {
        Outcome::Replied { message, reply } => Delivered::Replied(answer_to(message, reply)),
        Outcome::Started { job } => Delivered::Started(job),
        other => {
            drop(other);
            Delivered::Neither
        }
    }
}

/// The answer of a job, where it ended.
pub fn ended(outcome: Outcome) -> Option<Replied>
    ensures { result ≡ ended_in outcome }
{
    match outcome {
        Outcome::Stepped { step, message } => ending(message, step),
        other => {
            drop(other);
            None
        }
    }
}

fn ending(message: Option<u64>, step: JobStep) -> Option<Replied>
    ensures { result ≡ ending message step.reply }
{
    let message = message?;
    let reply = step.reply?;
    Some(answer_to(message, reply))
}

fn answer_to(message: u64, reply: Reply) -> Replied
    ensures { result ≡ replied message reply }
{
    Replied {
        message,
        status: reply.status,
    }
}

/// The state of the replica that took an answer.
pub fn state(outcome: Outcome) -> Option<ReplicaState>
    ensures { result ≡ state_in outcome }
{
    match outcome {
        Outcome::Took { state, .. } => Some(state),
        other => {
            drop(other);
            None
        }
    }
}

/// The number of a query that was asked.
pub fn asked(outcome: Outcome) -> Option<u32>
    ensures { result ≡ asked_in outcome }
{
    match outcome {
        Outcome::Asked(query) => Some(query),
        other => {
            drop(other);
            None
        }
    }
}

/// Whether a piece was served.
pub fn is_served(outcome: Outcome) -> bool
    ensures { result ≡ is_served outcome }
{
    match outcome {
        Outcome::Served(_) => true,
        other => {
            drop(other);
            false
        }
    }
}

/// The answer of a query.
pub fn answer(outcome: Outcome) -> Option<Answer>
    ensures { result ≡ answer_in outcome }
{
    match outcome {
        Outcome::Answered(answer) => Some(answer),
        other => {
            drop(other);
            None
        }
    }
}
