ghost use Rattle.std.specs.Prelude.{◌≡◌, [], false, string_bytes, OnOk};
ghost use Rattle.rt_desk.specs.IsDesk.{IsDesk};
ghost use Rattle.rt_desk.specs.Saying.{EventLineTold, EventTold, FurtherTold, LineTold, OfflineTold, UnlessHeld, held_by, is_due};
ghost use Rattle.rt_desk.specs.Telling.{DoesTold};
ghost use Rattle.rt_events.specs.Fits.{Fits};
ghost use Rattle.rt_macros.specs.Doing.{DoesText};
ghost use Rattle.rt_script.specs.Line.{FitsFurther, FitsLine};
ghost use Rattle.rt_world.specs.Step.{due_of};

use crate::desk::Desk;
use crate::forcing::{play_force_commit, play_force_status, play_pause, play_resume};
use crate::hybrid_lines::{play_hybrid, push_line};
use crate::latest::play_latest;
use crate::macros::play_macro;
use crate::passing::{pass_nooffline, pass_noquery};
use crate::rehearsal_lines::{play_loaded, play_peer, play_rehearse, play_step};
use rt_base::{Instance, Partition, Sequence};
use rt_macros::{apply, waits};
use rt_pause::Pause;
use rt_report::{write_held, write_outcome};
use rt_script::{Further, Line};
use rt_world::{Event, Refusal, World};
use std::alloc::Global;

/// Has what a line says happen to a world and its desk, and makes the text that is reported of it.
///
/// It gives the refusal of the first event of the line that is refused; those before it have happened.
pub fn play_said(
    alloc: Global,
    world: &mut World,
    desk: &mut Desk,
    said: Line,
    text: &mut String,
) -> Result<(), Refusal>
    requires unspent { world.old.spent ≡ false }
    requires desk { IsDesk world.old.state.setup.schema desk.old }
    requires fits { FitsLine world.old.state.setup.schema said }
    requires empty { string_bytes text.old ≡ [] }
    ensures told { DoesTold (LineTold said desk.old) world.old.state world.new (string_bytes text.new) desk.new result }
    ensures desk { OnOk result (IsDesk world.old.state.setup.schema desk.new) }
{
    match said {
        Line::Event(event) => play_event_line(alloc, world, &desk.pause, &event, text),
        Line::Macro(said) => play_macro(alloc, world, &desk.pause, said, text),
        Line::NoQuery(number) => pass_noquery(world, number, text),
        Line::Further(said) => play_further(alloc, world, desk, said, text),
    }
}

fn play_further(
    alloc: Global,
    world: &mut World,
    desk: &mut Desk,
    said: Further,
    text: &mut String,
) -> Result<(), Refusal>
    requires unspent { world.old.spent ≡ false }
    requires desk { IsDesk world.old.state.setup.schema desk.old }
    requires fits { FitsFurther world.old.state.setup.schema said }
    requires empty { string_bytes text.old ≡ [] }
    ensures told { DoesTold (FurtherTold said desk.old) world.old.state world.new (string_bytes text.new) desk.new result }
    ensures desk { OnOk result (IsDesk world.old.state.setup.schema desk.new) }
{
    match said {
        Further::Latest { asked } => play_latest(alloc, world, &desk.upsert, asked, text),
        Further::Offline { text: rows } => play_offline(alloc, world, desk, rows.as_str(), text),
        Further::Hybrid { asked } => play_hybrid(alloc, world, &desk.hybrid, asked, text),
        Further::Pause => play_pause(alloc, world, &mut desk.pause, text),
        Further::Resume => play_resume(world, &mut desk.pause, text),
        Further::ForceCommit => play_force_commit(alloc, world, &mut desk.jobs, text),
        Further::ForceStatus { job } => play_force_status(alloc, world, &desk.jobs, job, text),
        Further::Peer {
            instance,
            partition,
            sequence,
        } => play_peer(alloc, world, instance, partition, sequence, text),
        Further::Rehearse { servers, keep } => {
            play_rehearse(alloc, world, &mut desk.rehearsing, servers, keep, text)
        }
        Further::Loaded {
            instance,
            partition,
            sequence,
        } => play_loaded(
            world,
            &mut desk.rehearsing,
            instance,
            partition,
            sequence,
            text,
        ),
        Further::Step => play_step(world, &mut desk.rehearsing, text),
    }
}

// `offline TEXT`: pushes the rows of a text beside the stream, where there is a table.
fn play_offline(
    alloc: Global,
    world: &mut World,
    desk: &mut Desk,
    rows: &str,
    text: &mut String,
) -> Result<(), Refusal>
    requires unspent { world.old.spent ≡ false }
    requires desk { IsDesk world.old.state.setup.schema desk.old }
    requires empty { string_bytes text.old ≡ [] }
    ensures told { DoesTold (OfflineTold rows.now desk.old desk.old.hybrid) world.old.state world.new (string_bytes text.new) desk.new result }
    ensures desk { OnOk result (IsDesk world.old.state.setup.schema desk.new) }
{
    match &mut desk.hybrid {
        Some(table) => push_line(alloc, world, table, rows, text),
        None => pass_nooffline(world, text),
    }
}

// Has an event happen, unless its replica waits for the run to be resumed.
fn play_event_line(
    alloc: Global,
    world: &mut World,
    pause: &Pause,
    event: &Event,
    text: &mut String,
) -> Result<(), Refusal>
    requires unspent { world.old.spent ≡ false }
    requires fits { Fits world.old.state.setup.schema event.now }
    requires empty { string_bytes text.old ≡ [] }
    ensures { DoesText (EventLineTold pause.now event.now) world.old.state world.new (string_bytes text.new) result }
{
    let held = held_by(world, pause, event);
    play_unless_held(alloc, world, held, event, text)
}

fn play_unless_held(
    alloc: Global,
    world: &mut World,
    held: Option<(Instance, Partition, Sequence)>,
    event: &Event,
    text: &mut String,
) -> Result<(), Refusal>
    requires unspent { world.old.spent ≡ false }
    requires fits { Fits world.old.state.setup.schema event.now }
    requires empty { string_bytes text.old ≡ [] }
    ensures { DoesText (UnlessHeld held event.now) world.old.state world.new (string_bytes text.new) result }
{
    match held {
        Some((instance, partition, sequence)) => {
            write_held(text, instance, partition, sequence)?;
            Ok(())
        }
        None => play_event(alloc, world, event, text),
    }
}

// The replica that would begin to consume by an event, but waits for the run to be resumed.
fn held_by(world: &World, pause: &Pause, event: &Event) -> Option<(Instance, Partition, Sequence)>
    requires { world.now.spent ≡ false }
    ensures { result ≡ held_by world.now.state pause.now event.now }
{
    match event {
        Event::Consume {
            instance,
            partition,
            sequence,
            max: _,
        } => {
            if waits(world, pause, *instance, *partition, *sequence) && is_due(world, event) {
                Some((*instance, *partition, *sequence))
            } else {
                None
            }
        }
        _ => None,
    }
}

fn is_due(world: &World, event: &Event) -> bool
    requires { world.now.spent ≡ false }
    ensures { result ≡ is_due (due_of world.now.state event.now) }
{
    world.due(event).is_ok()
}

// Has an event happen, and makes the text that is reported of it.
#[tactic(auto, using(rt_macros::proofs::Doing::does_then, rt_macros::proofs::Doing::does_refused, rt_macros::proofs::Doing::does_told))]
fn play_event(
    alloc: Global,
    world: &mut World,
    event: &Event,
    text: &mut String,
) -> Result<(), Refusal>
    requires unspent { world.old.spent ≡ false }
    requires fits { Fits world.old.state.setup.schema event.now }
    requires empty { string_bytes text.old ≡ [] }
    ensures { DoesText (EventTold event.now) world.old.state world.new (string_bytes text.new) result }
{
    let outcome = apply(alloc, world, event)?;
    let written = write_outcome(alloc, text, event, &outcome);
    drop(outcome);
    written?;
    Ok(())
}
