//! Each event goes to its method.
ghost use Rattle.std.specs.Prelude.{◌≡◌};
ghost use Rattle.rt_events.specs.Fits.{Fits};
ghost use Rattle.rt_world.specs.Step.{due_of, Steps};
ghost use Rattle.rt_state.specs.IsSafeWorld.{IsSafeWorld};

use crate::steps;
use rt_events::{Event, Outcome, Refusal};
use rt_nodes::Chore;
use rt_state::State;
use std::alloc::Global;

/// Why an event can't happen now, if it can't. Takes no memory.
pub(crate) fn due(state: &State, event: &Event) -> Result<(), Refusal>
    ensures { result ≡ due_of state.now event.now }
{
    let _cost = match event {
        Event::Produce { partition, message } => state.produce_due(*partition, message)?,
        Event::Tick { millis } => state.tick_due(*millis)?,
        Event::Lead { controller, on: _ } => state.lead_due(*controller)?,
        Event::Consume {
            instance,
            partition,
            sequence,
            max,
        } => state.consume_due(*instance, *partition, *sequence, *max)?,
        Event::Force {
            instance,
            partition,
            sequence,
        } => state.force_due(*instance, *partition, *sequence)?,
        Event::Stop {
            instance,
            partition,
            sequence,
        } => state.stop_due(*instance, *partition, *sequence)?,
        Event::Build {
            instance,
            partition,
            sequence,
        } => state.build_due(*instance, *partition, *sequence)?,
        Event::Report {
            instance,
            partition,
            sequence,
        } => state.report_due(*instance, *partition, *sequence)?,
        Event::Extend {
            instance,
            partition,
            sequence,
            millis: _,
        } => state.extend_due(*instance, *partition, *sequence)?,
        Event::Deliver {
            message,
            controller,
        } => state.deliver_due(*message, *controller)?,
        Event::Job { controller, job } => state.job_due(*controller, *job)?,
        Event::Reply { message } => state.reply_due(*message)?,
        Event::CrashServer { instance } => state.crash_server_due(*instance)?,
        Event::CrashController { controller } => state.crash_controller_due(*controller)?,
        Event::RestartServer { instance } => state.restart_server_due(*instance)?,
        Event::RestartController { controller } => state.restart_controller_due(*controller)?,
        Event::See { instance } => state.see_due(*instance)?,
        Event::Transit {
            instance,
            partition,
            sequence,
        } => state.transit_due(*instance, *partition, *sequence)?,
        Event::Download {
            instance,
            partition,
            sequence,
        } => state.download_due(*instance, *partition, *sequence)?,
        Event::Repair {
            controller,
            partition,
        } => state.chore_due(*controller, *partition, Chore::Repair)?,
        Event::Retain {
            controller,
            partition,
        } => state.chore_due(*controller, *partition, Chore::Retire)?,
        Event::FaultStore { kept: _ } => state.fault_due()?,
        Event::FaultDeep { kept: _ } => state.fault_due()?,
        Event::Ask { query: _ } => state.ask_due()?,
        Event::Route { query, partition } => state.route_due(*query, *partition)?,
        Event::Piece {
            query,
            partition,
            sequence,
            instance,
        } => state.piece_due(*query, *partition, *sequence, *instance)?,
        Event::Answer { query } => state.answer_due(*query)?,
        Event::ShowMeta {
            partition,
            sequence: _,
        } => state.show_meta_due(*partition)?,
        Event::ShowIdeal => state.show_ideal_due()?,
    };
    Ok(())
}

/// Has an event happen, and says what came of it. A refused event changes nothing, but for want of memory.
pub(crate) fn apply(state: &mut State, alloc: Global, event: &Event) -> Result<Outcome, Refusal>
    requires safe { IsSafeWorld state.old }
    requires fits { Fits state.old.setup.schema event.now }
    ensures { Steps state.old event.now state.new result }
{
    match event {
        Event::Produce { partition, message } => steps::produce(state, alloc, *partition, message),
        Event::Tick { millis } => steps::tick(state, *millis),
        Event::Lead { controller, on } => steps::lead(state, *controller, *on),
        Event::Consume {
            instance,
            partition,
            sequence,
            max,
        } => steps::consume(state, alloc, *instance, *partition, *sequence, *max),
        Event::Force {
            instance,
            partition,
            sequence,
        } => steps::force(state, *instance, *partition, *sequence),
        Event::Stop {
            instance,
            partition,
            sequence,
        } => steps::stop(state, *instance, *partition, *sequence),
        Event::Build {
            instance,
            partition,
            sequence,
        } => steps::build(state, alloc, *instance, *partition, *sequence),
        Event::Report {
            instance,
            partition,
            sequence,
        } => steps::report(state, alloc, *instance, *partition, *sequence),
        Event::Extend {
            instance,
            partition,
            sequence,
            millis,
        } => steps::extend(state, alloc, *instance, *partition, *sequence, *millis),
        Event::Deliver {
            message,
            controller,
        } => steps::deliver(state, alloc, *message, *controller),
        Event::Job { controller, job } => steps::job(state, alloc, *controller, *job),
        Event::Reply { message } => steps::reply(state, alloc, *message),
        Event::CrashServer { instance } => steps::crash_server(state, *instance),
        Event::CrashController { controller } => steps::crash_controller(state, *controller),
        Event::RestartServer { instance } => steps::restart_server(state, alloc, *instance),
        Event::RestartController { controller } => steps::restart_controller(state, *controller),
        Event::See { instance } => steps::see(state, alloc, *instance),
        Event::Transit {
            instance,
            partition,
            sequence,
        } => steps::transit(state, alloc, *instance, *partition, *sequence),
        Event::Download {
            instance,
            partition,
            sequence,
        } => steps::download(state, alloc, *instance, *partition, *sequence),
        Event::Repair {
            controller,
            partition,
        } => steps::keep(state, alloc, *controller, *partition, Chore::Repair),
        Event::Retain {
            controller,
            partition,
        } => steps::keep(state, alloc, *controller, *partition, Chore::Retire),
        Event::FaultStore { kept } => steps::fault_store(state, *kept),
        Event::FaultDeep { kept } => steps::fault_deep(state, *kept),
        Event::Ask { query } => steps::ask(state, alloc, query),
        Event::Route { query, partition } => steps::route(state, alloc, *query, *partition),
        Event::Piece {
            query,
            partition,
            sequence,
            instance,
        } => steps::piece(state, alloc, *query, *partition, *sequence, *instance),
        Event::Answer { query } => steps::answer(state, alloc, *query),
        Event::ShowMeta {
            partition,
            sequence,
        } => steps::show_meta(state, alloc, *partition, *sequence),
        Event::ShowIdeal => steps::show_ideal(state, alloc),
    }
}
