ghost use Rattle.std.specs.Prelude.{◌≡◌, ◌<◌, false};
ghost use Rattle.rt_macros.specs.Doing.{Does};
ghost use Rattle.rt_events.specs.Fits.{Fits};
ghost use Rattle.rt_macros.specs.Exchanging.{
  AfterDelivery,
  AfterReport,
  Exchanges,
  ExchangesBy,
  Handles,
  MakesJob,
  MakesStep,
  ReportsAndFinishes,
  SendsAndTakes,
  TakesAnswer,
  down_due,
  exchange_due,
};

use crate::acting::act;
use crate::outcomes::{Delivered, Replied, ended, handled, sent, state};
use rt_base::{ControllerId, Instance, NodeId, Partition, Sequence, Which};
use rt_model::{ReplicaState, ReplyStatus};
use rt_world::{Event, Outcome, Refusal, World};
use std::alloc::Global;

/// A request that went to a controller, and its answer.
#[derive(Drop)]
pub struct Exchanged {
    /// The number of the request's message.
    pub request: u64,
    /// The number of the answer's message.
    pub reply: u64,
    pub status: ReplyStatus,
    /// The replica's state behind it.
    pub state: ReplicaState,
}

/// Has the request of a replica go to a controller, and the answer back.
pub fn exchange(
    alloc: Global,
    world: &mut World,
    instance: Instance,
    partition: Partition,
    sequence: Sequence,
    controller: ControllerId,
) -> Result<Exchanged, Refusal>
    requires { world.old.spent ≡ false }
    ensures { Does (Exchanges instance partition sequence controller) world.old.state world.new result }
{
    let report = Event::Report {
        instance,
        partition,
        sequence,
    };
    exchange_by(alloc, world, report, controller)
}

fn exchange_by(
    alloc: Global,
    world: &mut World,
    report: Event,
    controller: ControllerId,
) -> Result<Exchanged, Refusal>
    requires unspent { world.old.spent ≡ false }
    requires fits { Fits world.old.state.setup.schema report }
    ensures { Does (ExchangesBy report controller) world.old.state world.new result }
{
    exchange_due(world, &report, controller)?;
    report_and_finish(alloc, world, report, controller)
}

/// Has a request be sent and go to a controller, and the answer back.
#[tactic(auto, using(crate::proofs::Doing::does_then, crate::proofs::Doing::does_refused, crate::proofs::Doing::does_told))]
fn report_and_finish(
    alloc: Global,
    world: &mut World,
    report: Event,
    controller: ControllerId,
) -> Result<Exchanged, Refusal>
    requires unspent { world.old.spent ≡ false }
    requires fits { Fits world.old.state.setup.schema report }
    ensures { Does (ReportsAndFinishes report controller) world.old.state world.new result }
{
    let outcome = act(alloc, world, report)?;
    finish_exchange(alloc, world, outcome, controller)
}

// Why an exchange can't happen, if it can't: for a node that isn't there, one that is down, or what its
// request is refused for.
fn exchange_due(world: &World, report: &Event, controller: ControllerId) -> Result<(), Refusal>
    requires { world.now.spent ≡ false }
    ensures { result ≡ exchange_due world.now.state report.now controller }
{
    if controller.0 >= world.setup().controllers {
        return Err(Refusal::NoSuchNode);
    }
    let due = world.due(report);
    if world.up(NodeId::Controller(controller)) {
        due
    } else {
        down_due(due)
    }
}

// A controller that is down comes behind a node that isn't there, and before all else.
fn down_due(due: Result<(), Refusal>) -> Result<(), Refusal>
    ensures { result ≡ down_due due }
{
    match due {
        Err(Refusal::NoSuchNode) => Err(Refusal::NoSuchNode),
        Err(Refusal::NodeDown) => Err(Refusal::NodeDown),
        Err(Refusal::NothingToDo) => Err(Refusal::NodeDown),
        Err(Refusal::NoSuchMessage) => Err(Refusal::NodeDown),
        Err(Refusal::Limit(_)) => Err(Refusal::NodeDown),
        Err(Refusal::Memory) => Err(Refusal::NodeDown),
        Ok(()) => Err(Refusal::NodeDown),
    }
}

/// Has a request that was sent go to a controller, and the answer back.
pub fn finish_exchange(
    alloc: Global,
    world: &mut World,
    reported: Outcome,
    controller: ControllerId,
) -> Result<Exchanged, Refusal>
    requires { world.old.spent ≡ false }
    ensures { Does (AfterReport controller reported) world.old.state world.new result }
{
    match sent(reported) {
        Some(request) => send_and_take(alloc, world, request, controller),
        None => Err(Refusal::NothingToDo),
    }
}

#[tactic(auto, using(crate::proofs::Doing::does_then, crate::proofs::Doing::does_refused, crate::proofs::Doing::does_told))]
fn send_and_take(
    alloc: Global,
    world: &mut World,
    request: u64,
    controller: ControllerId,
) -> Result<Exchanged, Refusal>
    requires { world.old.spent ≡ false }
    ensures { Does (SendsAndTakes controller request) world.old.state world.new result }
{
    let replied = handle(alloc, world, request, controller)?;
    take_answer(alloc, world, request, replied)
}

// Has the answer go back.
#[tactic(auto, using(crate::proofs::Doing::does_then, crate::proofs::Doing::does_refused, crate::proofs::Doing::does_told))]
fn take_answer(
    alloc: Global,
    world: &mut World,
    request: u64,
    replied: Replied,
) -> Result<Exchanged, Refusal>
    requires { world.old.spent ≡ false }
    ensures { Does (TakesAnswer request replied) world.old.state world.new result }
{
    let reply = Event::Reply {
        message: replied.message,
    };
    let outcome = act(alloc, world, reply)?;
    match state(outcome) {
        Some(state) => Ok(Exchanged {
            request,
            reply: replied.message,
            status: replied.status,
            state,
        }),
        None => Err(Refusal::NothingToDo),
    }
}

// Has a controller take a request, and make the steps of the job that it starts.
#[tactic(auto, using(crate::proofs::Doing::does_then, crate::proofs::Doing::does_refused, crate::proofs::Doing::does_told))]
fn handle(
    alloc: Global,
    world: &mut World,
    request: u64,
    controller: ControllerId,
) -> Result<Replied, Refusal>
    requires { world.old.spent ≡ false }
    ensures { Does (Handles controller request) world.old.state world.new result }
{
    let deliver = Event::Deliver {
        message: request,
        controller,
    };
    let outcome = act(alloc, world, deliver)?;
    after_delivery(alloc, world, controller, handled(outcome))
}

fn after_delivery(
    alloc: Global,
    world: &mut World,
    controller: ControllerId,
    delivered: Delivered,
) -> Result<Replied, Refusal>
    requires { world.old.spent ≡ false }
    ensures { Does (AfterDelivery controller delivered) world.old.state world.new result }
{
    match delivered {
        Delivered::Replied(replied) => Ok(replied),
        Delivered::Started(job) => end_job(alloc, world, controller, job),
        Delivered::Neither => Err(Refusal::NothingToDo),
    }
}

// Makes the steps of a job until it has ended; there are no more of them than events left.
#[tactic(auto, using(crate::proofs::Doing::leads_itself))]
fn end_job(
    alloc: Global,
    world: &mut World,
    controller: ControllerId,
    job: u64,
) -> Result<Replied, Refusal>
    requires { world.old.spent ≡ false }
    ensures { Does (MakesJob controller job) world.old.state world.new result }
{
    let mut left = world.events_left();
    while left > 0 {
        match step(alloc, world, controller, job) {
            Ok(Some(replied)) => return Ok(replied),
            Ok(None) => {}
            Err(refusal) => return Err(refusal),
        }
        left -= 1;
    }
    Err(Refusal::Limit(Which::Events))
}

// Makes a step of a job; its answer, where it ended.
#[tactic(auto, using(crate::proofs::Doing::does_then, crate::proofs::Doing::does_refused, crate::proofs::Doing::does_told))]
fn step(
    alloc: Global,
    world: &mut World,
    controller: ControllerId,
    job: u64,
) -> Result<Option<Replied>, Refusal>
    requires { world.old.spent ≡ false }
    ensures { Does (MakesStep controller job) world.old.state world.new result }
{
    let outcome = act(alloc, world, Event::Job { controller, job })?;
    Ok(ended(outcome))
}
