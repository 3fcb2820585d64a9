ghost use Rattle.std.specs.Prelude.{◌≡◌, Ok, Some, false};
ghost use Rattle.rt_consumer.specs.declared.next.ReplicaDue.TheVariants.{Consume};
ghost use Rattle.rt_macros.specs.Doing.{Does, Each};
ghost use Rattle.rt_macros.specs.Settling.{
  BuildAndExchange,
  ConsumeTurn,
  Downloads,
  ExchangeTurn,
  FinishesTurn,
  ReplicaTurn,
  ReplicasOfAll,
  ReplicasHeld,
  ReplicasTurn,
  Requests,
  Round,
  ServerTurn,
  ServersTurn,
  Settles,
  SettlesIn,
  Transits,
  TransitsAndDownloads,
  waits_in,
};
ghost use Rattle.rt_world.specs.Reading.{next_at};

use crate::acting::{act, attempt, happen};
use crate::exchanging::finish_exchange;
use crate::resting::resting;
use rt_base::{ControllerId, Instance, NodeId, Partition, Sequence};
use rt_consumer::ReplicaDue;
use rt_pause::Pause;
use rt_world::{Event, Outcome, Refusal, World};
use std::alloc::Global;

/// The greatest number of rounds.
pub const MOST_ROUNDS: u64 = 1_000_000;

/// The messages that a replica takes at once.
pub const BATCH: u32 = 100;

/// Has the nodes do what they have to do, in at most so many rounds; whether the last of these was quiet. While the run is
/// paused no replica begins to consume.
pub fn settle(alloc: Global, world: &mut World, pause: &Pause, rounds: u64) -> Result<bool, Refusal>
    requires { world.old.spent ≡ false }
    ensures { Does (Settles pause.now rounds) world.old.state world.new result }
{
    if rounds == 0 || rounds > MOST_ROUNDS {
        return Err(Refusal::NothingToDo);
    }
    settle_rounds(alloc, world, pause, rounds)
}

#[tactic(auto, using(crate::proofs::Doing::leads_itself))]
fn settle_rounds(
    alloc: Global,
    world: &mut World,
    pause: &Pause,
    rounds: u64,
) -> Result<bool, Refusal>
    requires { world.old.spent ≡ false }
    ensures { Does (SettlesIn pause.now rounds) world.old.state world.new result }
{
    let mut left = rounds;
    while left > 0 {
        match round(alloc, world, pause) {
            Ok(true) => {}
            Ok(false) => return Ok(true),
            Err(refusal) => return Err(refusal),
        }
        left -= 1;
    }
    Ok(false)
}

// One round; whether anything happened in it but servers that read the ideal state.
#[tactic(auto, using(crate::proofs::Doing::does_then, crate::proofs::Doing::does_refused, crate::proofs::Doing::does_told))]
fn round(alloc: Global, world: &mut World, pause: &Pause) -> Result<bool, Refusal>
    requires { world.old.spent ≡ false }
    ensures { Does (Round pause.now) world.old.state world.new result }
{
    let busy = serve_all(alloc, world)?;
    consume_all(alloc, world, pause, busy)
}

// Each server that is up reads the ideal state, and does what it wants.
#[tactic(auto, using(crate::proofs::Doing::leads_itself))]
fn serve_all(alloc: Global, world: &mut World) -> Result<bool, Refusal>
    requires { world.old.spent ≡ false }
    ensures { Does (ServersTurn false) world.old.state world.new result }
{
    let servers = world.setup().servers;
    let mut busy = false;
    let mut at = 0;
    while at < servers {
        match server_turn(alloc, world, Instance(at), busy) {
            Ok(now) => busy = now,
            Err(refusal) => return Err(refusal),
        }
        at += 1;
    }
    Ok(busy)
}

// The replicas of each server that is up consume, build and exchange.
#[tactic(auto, using(crate::proofs::Doing::leads_itself))]
fn consume_all(
    alloc: Global,
    world: &mut World,
    pause: &Pause,
    noted: bool,
) -> Result<bool, Refusal>
    requires { world.old.spent ≡ false }
    ensures { Does (ReplicasOfAll pause.now noted) world.old.state world.new result }
{
    let servers = world.setup().servers;
    let mut busy = noted;
    let mut at = 0;
    while at < servers {
        match replicas_turn(alloc, world, pause, Instance(at), busy) {
            Ok(now) => busy = now,
            Err(refusal) => return Err(refusal),
        }
        at += 1;
    }
    Ok(busy)
}

#[tactic(auto, using(crate::proofs::Doing::does_then, crate::proofs::Doing::does_refused, crate::proofs::Doing::does_told))]
fn server_turn(
    alloc: Global,
    world: &mut World,
    instance: Instance,
    busy: bool,
) -> Result<bool, Refusal>
    requires { world.old.spent ≡ false }
    ensures { Does (ServerTurn instance.0 busy) world.old.state world.new result }
{
    if !world.up(NodeId::Server(instance)) {
        return Ok(busy);
    }
    happen(alloc, world, Event::See { instance })?;
    transit_and_download(alloc, world, instance, busy)
}

#[tactic(auto, using(crate::proofs::Doing::does_then, crate::proofs::Doing::does_refused, crate::proofs::Doing::does_told))]
fn transit_and_download(
    alloc: Global,
    world: &mut World,
    instance: Instance,
    busy: bool,
) -> Result<bool, Refusal>
    requires { world.old.spent ≡ false }
    ensures { Does (TransitsAndDownloads instance busy) world.old.state world.new result }
{
    let busy = transit_all(alloc, world, instance, busy)?;
    download_all(alloc, world, instance, busy)
}

#[tactic(auto, using(crate::proofs::Doing::leads_itself))]
fn transit_all(
    alloc: Global,
    world: &mut World,
    instance: Instance,
    noted: bool,
) -> Result<bool, Refusal>
    requires { world.old.spent ≡ false }
    ensures { Does (Transits instance noted) world.old.state world.new result }
{
    let due = world.due_transits(alloc, instance)?;
    let mut busy = noted;
    for segment in due.as_slice() {
        let (partition, sequence) = *segment;
        let transit = Event::Transit {
            instance,
            partition,
            sequence,
        };
        match attempt(alloc, world, transit, busy) {
            Ok(now) => busy = now,
            Err(refusal) => return Err(refusal),
        }
    }
    Ok(busy)
}

#[tactic(auto, using(crate::proofs::Doing::leads_itself))]
fn download_all(
    alloc: Global,
    world: &mut World,
    instance: Instance,
    noted: bool,
) -> Result<bool, Refusal>
    requires { world.old.spent ≡ false }
    ensures { Does (Downloads instance noted) world.old.state world.new result }
{
    let wanted = world.wanted(alloc, instance)?;
    let mut busy = noted;
    for segment in wanted.as_slice() {
        let (partition, sequence) = *segment;
        let download = Event::Download {
            instance,
            partition,
            sequence,
        };
        match attempt(alloc, world, download, busy) {
            Ok(now) => busy = now,
            Err(refusal) => return Err(refusal),
        }
    }
    Ok(busy)
}

#[tactic(auto, using(crate::proofs::Doing::list_goes_on, crate::proofs::Doing::list_stops))]
fn replicas_turn(
    alloc: Global,
    world: &mut World,
    pause: &Pause,
    instance: Instance,
    noted: bool,
) -> Result<bool, Refusal>
    requires { world.old.spent ≡ false }
    ensures { Does (ReplicasTurn pause.now instance.0 noted) world.old.state world.new result }
{
    if !world.up(NodeId::Server(instance)) {
        return Ok(noted);
    }
    held_turn(alloc, world, pause, instance, noted)
}

fn held_turn(
    alloc: Global,
    world: &mut World,
    pause: &Pause,
    instance: Instance,
    noted: bool,
) -> Result<bool, Refusal>
    requires { world.old.spent ≡ false }
    ensures { Does (ReplicasHeld pause.now instance noted) world.old.state world.new result }
{
    let held = world.held(alloc, instance)?;
    turn_all(alloc, world, pause, instance, held.as_slice(), noted)
}

// Each replica has its turn; those at rest are passed together, since theirs comes to nothing.
#[tactic(auto, using(crate::proofs::Passed::pass_within))]
fn turn_all(
    alloc: Global,
    world: &mut World,
    pause: &Pause,
    instance: Instance,
    segments: &[(Partition, Sequence)],
    noted: bool,
) -> Result<bool, Refusal>
    requires { world.old.spent ≡ false }
    ensures { Does (Each (ReplicaTurn pause.now instance) segments.now noted) world.old.state world.new result }
{
    let mut busy = noted;
    let mut at = resting(world, instance, segments);
    while at < segments.len() {
        let (partition, sequence) = segments[at];
        match replica_turn(alloc, world, pause, instance, partition, sequence, busy) {
            Ok(now) => busy = now,
            Err(refusal) => return Err(refusal),
        }
        at += 1;
        at += resting(world, instance, &segments[at..]);
    }
    Ok(busy)
}

// A replica consumes, builds and makes an exchange, each where it is what it has to do next.
#[tactic(auto, using(crate::proofs::Next::turn_refused))]
fn replica_turn(
    alloc: Global,
    world: &mut World,
    pause: &Pause,
    instance: Instance,
    partition: Partition,
    sequence: Sequence,
    busy: bool,
) -> Result<bool, Refusal>
    requires { world.old.spent ≡ false }
    ensures { Does (ReplicaTurn pause.now instance (partition, sequence) busy) world.old.state world.new result }
{
    match world.next(instance, partition, sequence)? {
        Some(ReplicaDue::Consume) => consume_first(
            alloc, world, pause, instance, partition, sequence, busy,
        ),
        Some(ReplicaDue::Build) => build_first(alloc, world, instance, partition, sequence, busy),
        Some(ReplicaDue::Ask) => exchange_turn(alloc, world, instance, partition, sequence, busy),
        None => Ok(busy),
    }
}

// A replica that has to consume next does so, and goes on with what is next then.
#[tactic(auto, using(crate::proofs::Doing::does_then, crate::proofs::Doing::does_refused, crate::proofs::Doing::does_told))]
fn consume_first(
    alloc: Global,
    world: &mut World,
    pause: &Pause,
    instance: Instance,
    partition: Partition,
    sequence: Sequence,
    busy: bool,
) -> Result<bool, Refusal>
    requires unspent { world.old.spent ≡ false }
    requires next { next_at world.old.state instance partition sequence ≡ Ok (Some Consume) }
    ensures { Does (ReplicaTurn pause.now instance (partition, sequence) busy) world.old.state world.new result }
{
    let busy = consume_turn(alloc, world, pause, instance, partition, sequence, busy)?;
    build_and_exchange(alloc, world, instance, partition, sequence, busy)
}

// A replica that has to consume next does so; one of a paused run that hasn't begun to consume is left out.
fn consume_turn(
    alloc: Global,
    world: &mut World,
    pause: &Pause,
    instance: Instance,
    partition: Partition,
    sequence: Sequence,
    busy: bool,
) -> Result<bool, Refusal>
    requires unspent { world.old.spent ≡ false }
    requires next { next_at world.old.state instance partition sequence ≡ Ok (Some Consume) }
    ensures { Does (ConsumeTurn pause.now instance (partition, sequence) busy) world.old.state world.new result }
{
    if waits(world, pause, instance, partition, sequence) {
        return Ok(busy);
    }
    let consume = Event::Consume {
        instance,
        partition,
        sequence,
        max: BATCH,
    };
    attempt(alloc, world, consume, busy)
}

// A replica builds and makes an exchange, each where it is what it has to do next.
#[tactic(auto, using(crate::proofs::Next::rest_refused))]
fn build_and_exchange(
    alloc: Global,
    world: &mut World,
    instance: Instance,
    partition: Partition,
    sequence: Sequence,
    busy: bool,
) -> Result<bool, Refusal>
    requires { world.old.spent ≡ false }
    ensures { Does (BuildAndExchange instance (partition, sequence) busy) world.old.state world.new result }
{
    match world.next(instance, partition, sequence)? {
        Some(ReplicaDue::Consume) => Ok(busy),
        Some(ReplicaDue::Build) => build_first(alloc, world, instance, partition, sequence, busy),
        Some(ReplicaDue::Ask) => exchange_turn(alloc, world, instance, partition, sequence, busy),
        None => Ok(busy),
    }
}

// A replica builds, and makes an exchange where one is due then.
#[tactic(auto, using(crate::proofs::Doing::does_then, crate::proofs::Doing::does_refused, crate::proofs::Doing::does_told))]
fn build_first(
    alloc: Global,
    world: &mut World,
    instance: Instance,
    partition: Partition,
    sequence: Sequence,
    busy: bool,
) -> Result<bool, Refusal>
    requires { world.old.spent ≡ false }
    ensures { Does (BuildAndExchange instance (partition, sequence) busy) world.old.state world.new result }
{
    let build = Event::Build {
        instance,
        partition,
        sequence,
    };
    let busy = attempt(alloc, world, build, busy)?;
    exchange_turn(alloc, world, instance, partition, sequence, busy)
}

/// Whether the replica of a segment waits for the run to be resumed before it begins to consume.
pub fn waits(
    world: &World,
    pause: &Pause,
    instance: Instance,
    partition: Partition,
    sequence: Sequence,
) -> bool
    ensures { result ≡ waits_in world.now.state pause.now instance partition sequence }
{
    match world.stage(instance, partition, sequence) {
        Some(stage) => !pause.allows(stage),
        None => false,
    }
}

fn exchange_turn(
    alloc: Global,
    world: &mut World,
    instance: Instance,
    partition: Partition,
    sequence: Sequence,
    busy: bool,
) -> Result<bool, Refusal>
    requires { world.old.spent ≡ false }
    ensures { Does (ExchangeTurn instance (partition, sequence) busy) world.old.state world.new result }
{
    let Some(controller) = world.leader() else {
        return Ok(busy);
    };
    request_turn(
        alloc, world, instance, partition, sequence, controller, busy,
    )
}

// Has a replica's request be sent and answered, where there is one.
#[tactic(auto, using(crate::proofs::Doing::does_tried))]
fn request_turn(
    alloc: Global,
    world: &mut World,
    instance: Instance,
    partition: Partition,
    sequence: Sequence,
    controller: ControllerId,
    busy: bool,
) -> Result<bool, Refusal>
    requires { world.old.spent ≡ false }
    ensures { Does (Requests instance (partition, sequence) controller busy) world.old.state world.new result }
{
    let report = Event::Report {
        instance,
        partition,
        sequence,
    };
    match act(alloc, world, report) {
        Ok(outcome) => finish_turn(alloc, world, outcome, controller),
        Err(Refusal::NothingToDo) => Ok(busy),
        Err(Refusal::NoSuchMessage) => Err(Refusal::NoSuchMessage),
        Err(Refusal::NoSuchNode) => Err(Refusal::NoSuchNode),
        Err(Refusal::NodeDown) => Err(Refusal::NodeDown),
        Err(Refusal::Limit(which)) => Err(Refusal::Limit(which)),
        Err(Refusal::Memory) => Err(Refusal::Memory),
    }
}

// Finishes the exchange of a request that was sent.
#[tactic(auto, using(crate::proofs::Doing::does_then, crate::proofs::Doing::does_refused, crate::proofs::Doing::does_told))]
fn finish_turn(
    alloc: Global,
    world: &mut World,
    reported: Outcome,
    controller: ControllerId,
) -> Result<bool, Refusal>
    requires { world.old.spent ≡ false }
    ensures { Does (FinishesTurn controller reported) world.old.state world.new result }
{
    let _exchanged = finish_exchange(alloc, world, reported, controller)?;
    Ok(true)
}
