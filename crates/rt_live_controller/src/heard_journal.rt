ghost use Rattle.std.specs.Prelude.{◌≡◌, [], ◌∷◌, ◌++◌, map, Some, IfOk, OnOk};
ghost use Rattle.std.specs.List.{position};
ghost use Rattle.rt_live_controller.specs.Did.{
  answer_by,
  answer_from,
  ended_in,
  ended_with,
  heard_in,
  is_of_job,
  line_from,
  status_at,
};
ghost use Rattle.rt_msgs.specs.RequestText.{request_text};

use crate::ControllerDid;
use crate::heard_request::{HeardAnswer, HeardRequest};
use rt_controller::Handled;
use rt_lists::{Copied, Items};
use rt_live_output::Heard;
use rt_model::{JobStep, ReplyStatus, Request};
use rt_msgs::request_text;
use std::alloc::{AllocError, Global};

/// A job that has ended, with what it answered.
#[derive(Drop)]
pub struct EndedJob {
    pub job: u64,
    pub status: ReplyStatus,
}

/// What a controller heard: each request that it handled, and the jobs that have ended, each in its order.
#[derive(Drop)]
pub struct HeardJournal {
    pub(crate) heard: Vec<HeardRequest>,
    pub(crate) ended: Vec<EndedJob>,
}

impl HeardJournal {
    /// Nothing was heard yet.
    pub(crate) fn new(alloc: Global) -> HeardJournal
        ensures { (result.heard.items ≡ []) × (result.ended.items ≡ []) }
    {
        HeardJournal {
            heard: Vec::new(alloc),
            ended: Vec::new(alloc),
        }
    }

    /// Notes what a controller did. Fails only where memory is refused.
    pub(crate) fn note(&mut self, alloc: Global, did: &ControllerDid) -> Result<(), AllocError>
        ensures heard { OnOk result (self.new.heard.items ≡ self.old.heard.items ++ heard_in did.now) }
        ensures ended { OnOk result (self.new.ended.items ≡ self.old.ended.items ++ ended_in did.now) }
    {
        match did {
            ControllerDid::Heard {
                request,
                result,
                ..
            } => match result {
                Ok(handled) => self.hear(alloc, request, handled),
                Err(_) => Ok(()),
            },
            ControllerDid::Worked { job, result, .. } => match result {
                Ok(step) => self.end(alloc, *job, step),
                Err(_) => Ok(()),
            },
            ControllerDid::Believed => Ok(()),
            ControllerDid::Passed { .. } => Ok(()),
        }
    }

    fn hear(
        &mut self,
        alloc: Global,
        request: &Request,
        handled: &Handled,
    ) -> Result<(), AllocError>
        ensures heard { OnOk result (self.new.heard.items ≡ self.old.heard.items
            ++ record { request = request_text request.now; answer = answer_by handled.now } ∷ []) }
        ensures ended { self.new.ended.items ≡ self.old.ended.items }
    {
        let request = request_text(alloc, request)?;
        let answer = answer_of(alloc, handled)?;
        self.heard.push(HeardRequest { request, answer })?;
        Ok(())
    }

    // Where the step ended its job.
    fn end(&mut self, alloc: Global, job: u64, step: &JobStep) -> Result<(), AllocError>
        ensures heard { self.new.heard.items ≡ self.old.heard.items }
        ensures ended { OnOk result (self.new.ended.items ≡ self.old.ended.items ++ ended_with job step.now.reply) }
    {
        match &step.reply {
            Some(reply) => {
                let status = reply.status.copied(alloc)?;
                self.ended.push(EndedJob { job, status })?;
                Ok(())
            }
            None => Ok(()),
        }
    }

    /// Each request with its answer: that of its job where one was started, and none where that hasn't ended.
    pub(crate) fn into_heard(self, alloc: Global) -> Result<Items<Heard>, AllocError>
        ensures { IfOk result (λ lines. lines ≡ map (line_from self.ended.items) self.heard.items) }
    {
        let HeardJournal { heard, ended } = self;
        let mut lines = Vec::new(alloc);
        for request in heard {
            lines.push(told(alloc, ended.as_slice(), request)?)?;
        }
        Ok(Items::of(lines))
    }
}

// How a request was handled.
fn answer_of(alloc: Global, handled: &Handled) -> Result<HeardAnswer, AllocError>
    ensures { IfOk result (λ answer. answer ≡ answer_by handled.now) }
{
    match handled {
        Handled::Reply(reply) => Ok(HeardAnswer::Status(reply.status.copied(alloc)?)),
        Handled::Job(job) => Ok(HeardAnswer::Job(*job)),
    }
}

// A request with its answer.
fn told(alloc: Global, ended: &[EndedJob], heard: HeardRequest) -> Result<Heard, AllocError>
    ensures { IfOk result (λ line. line ≡ line_from ended.now heard) }
{
    let HeardRequest { request, answer } = heard;
    let status = match answer {
        HeardAnswer::Status(status) => Some(status),
        HeardAnswer::Job(job) => answer_in(alloc, ended, job)?,
    };
    Ok(Heard { request, status })
}

// What the job of this number answered, where it has ended.
fn answer_in(alloc: Global, ended: &[EndedJob], job: u64) -> Result<Option<ReplyStatus>, AllocError>
    ensures { IfOk result (λ status. status ≡ answer_from job ended.now) }
{
    match place_in(ended, job) {
        Some(place) => answer_at(alloc, ended, place),
        None => Ok(None),
    }
}

// The place of the job of this number.
fn place_in(ended: &[EndedJob], job: u64) -> Option<usize>
    ensures { result ≡ position (is_of_job job) ended.now }
{
    ended.iter().position(|one| one.job == job)
}

// What the job at a place answered.
fn answer_at(
    alloc: Global,
    ended: &[EndedJob],
    place: usize,
) -> Result<Option<ReplyStatus>, AllocError>
    ensures { IfOk result (λ status. status ≡ status_at ended.now (Some place)) }
{
    match ended.get(place) {
        Some(one) => Ok(Some(one.status.copied(alloc)?)),
        None => Ok(None),
    }
}
