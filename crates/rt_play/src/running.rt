ghost use Rattle.std.specs.Prelude.{◌≡◌, ◌<◌, ◌^◌, false, length, string_bytes, OnOk};
ghost use Rattle.rt_desk.specs.IsDesk.{IsDesk};
ghost use Rattle.rt_model.specs.Setup.{IsSetup};
ghost use Rattle.rt_play.specs.Beginning.{going_from};
ghost use Rattle.rt_play.specs.Plays.{PlaysLine, TellsFrom, TellsInput, going};
ghost use Rattle.rt_play.specs.Report.{fault_at};
ghost use Rattle.rt_state.specs.IsSafeWorld.{IsSafeWorld};

use crate::PlayEnd;
use crate::beginning::{Beginning, read_beginning};
use rt_base::Sink;
use rt_desk::{Desk, play_said};
use rt_lines::{LineReason, Lines, PlayFault};
use rt_model::Setup;
use rt_script::read_line;
use rt_world::{Refusal, World};
use rt_writing::write_all;
use std::alloc::Global;

/// Runs a script, and writes its report.
pub(crate) fn play_input<K: Sink>(
    alloc: Global,
    input: &[u8],
    sink: &mut K,
) -> Result<PlayEnd, PlayFault>
    ensures { TellsInput input.now (K.meaning sink.old) (K.meaning sink.new) result }
{
    let mut lines = Lines::make(input);
    match read_beginning(alloc, &mut lines) {
        Ok(beginning) => play_from_start(alloc, beginning, &mut lines, sink),
        Err(fault) => Err(fault),
    }
}

// Runs the lines behind a header.
fn play_from_start<K: Sink>(
    alloc: Global,
    beginning: Beginning,
    lines: &mut Lines<'_>,
    sink: &mut K,
) -> Result<PlayEnd, PlayFault>
    requires setup { IsSetup beginning.setup }
    requires desk { IsDesk beginning.setup.schema beginning.desk }
    requires few { length lines.old.lines < 2 ^ 64 }
    ensures { TellsFrom lines.old.lines (going_from beginning) (K.meaning sink.old) (K.meaning sink.new) result }
{
    let Beginning { setup, mut desk } = beginning;
    play_from(alloc, setup, &mut desk, lines, sink)
}

#[tactic(auto, using(crate::proofs::Beginnings::none_told, rt_world::proofs::StartSafe::start_safe))]
fn play_from<K: Sink>(
    alloc: Global,
    setup: Setup,
    desk: &mut Desk,
    lines: &mut Lines<'_>,
    sink: &mut K,
) -> Result<PlayEnd, PlayFault>
    requires setup { IsSetup setup }
    requires desk { IsDesk setup.schema desk.old }
    requires few { length lines.old.lines < 2 ^ 64 }
    ensures { TellsFrom lines.old.lines (going_from (record { setup = setup; desk = desk.old })) (K.meaning sink.old) (K.meaning sink.new) result }
{
    match World::make(alloc, setup) {
        Ok(mut world) => play_lines(alloc, &mut world, desk, lines, sink),
        Err(_) => Err(PlayFault::Memory),
    }
}

// Runs the lines that are left, from a world on.
fn play_lines<K: Sink>(
    alloc: Global,
    world: &mut World,
    desk: &mut Desk,
    lines: &mut Lines<'_>,
    sink: &mut K,
) -> Result<PlayEnd, PlayFault>
    requires unspent { world.old.spent ≡ false }
    requires safe { IsSafeWorld world.old.state }
    requires desk { IsDesk world.old.state.setup.schema desk.old }
    requires few { length lines.old.lines < 2 ^ 64 }
    ensures { TellsFrom lines.old.lines (going world.old desk.old) (K.meaning sink.old) (K.meaning sink.new) result }
{
    let mut text = String::new(alloc);
    let mut count = 0;
    while let Some((number, line)) = lines.next() {
        match play_line(alloc, world, desk, number, line, &mut text) {
            Ok(()) => {}
            Err(fault) => return Err(fault),
        }
        match write_all(sink, text.as_bytes()) {
            Ok(()) => {}
            Err(_) => return Err(PlayFault::WriteFault),
        }
        count += 1;
    }
    Ok(PlayEnd { lines: count })
}

// Has the events of a line happen, and makes the text that is reported of it.
fn play_line(
    alloc: Global,
    world: &mut World,
    desk: &mut Desk,
    number: u64,
    line: &[u8],
    text: &mut String,
) -> Result<(), PlayFault>
    requires unspent { world.old.spent ≡ false }
    requires desk { IsDesk world.old.state.setup.schema desk.old }
    ensures plays { PlaysLine number line.now world.old desk.old world.new desk.new (string_bytes text.new) result }
    ensures desk { OnOk result (IsDesk world.old.state.setup.schema desk.new) }
{
    text.clear();
    let setup = world.setup();
    let Some(said) = read_line(alloc, &setup.schema, &setup.table.name, line)? else {
        return Err(refused(number, LineReason::BadLine));
    };
    match play_said(alloc, world, desk, said, text) {
        Ok(()) => Ok(()),
        Err(refusal) => Err(fault(number, refusal)),
    }
}

/// Why a refused event stops the run at its line.
pub(crate) fn fault(line: u64, refusal: Refusal) -> PlayFault
    ensures { result ≡ fault_at line refusal }
{
    match refusal {
        Refusal::NoSuchMessage => refused(line, LineReason::NoSuchMessage),
        Refusal::NoSuchNode => refused(line, LineReason::NoSuchNode),
        Refusal::NodeDown => refused(line, LineReason::NodeDown),
        Refusal::NothingToDo => refused(line, LineReason::NothingToDo),
        Refusal::Limit(which) => PlayFault::Limit(which),
        Refusal::Memory => PlayFault::Memory,
    }
}

fn refused(line: u64, reason: LineReason) -> PlayFault
    ensures { result ≡ PlayFault.Refused line reason }
{
    PlayFault::Refused { line, reason }
}
