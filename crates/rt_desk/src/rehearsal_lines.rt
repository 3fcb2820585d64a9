ghost use Rattle.std.specs.Prelude.{◌≡◌, [], ◌++◌, false, OnOk, string_bytes};
ghost use Rattle.rt_desk.specs.Rehearsing.{LoadedTold, PeerTold, RehearseTold, StepTold, found_text, planned_text, stepped_text};
ghost use Rattle.rt_desk.specs.Telling.{Counts, DoesChange};
ghost use Rattle.rt_macros.specs.Doing.{DoesText};
ghost use Rattle.rt_report.specs.FurtherTexts.{rehearsed_text};

use rt_base::{Instance, Partition, Sequence};
use rt_dryrun::{PeerFile, Planned, Rehearsing, Stepped, peer};
use rt_macros::pass;
use rt_report::{write_at, write_nopeer, write_noplan, write_peer, write_plan, write_rehearsed};
use rt_world::{Refusal, World};
use std::alloc::{AllocError, Global};

/// `peer sK P/Q`: tells from which other server a server would get a segment's file.
pub(crate) fn play_peer(
    alloc: Global,
    world: &mut World,
    instance: Instance,
    partition: Partition,
    sequence: Sequence,
    text: &mut String,
) -> Result<(), Refusal>
    requires unspent { world.old.spent ≡ false }
    requires empty { string_bytes text.old ≡ [] }
    ensures { DoesText (PeerTold instance partition sequence) world.old.state world.new (string_bytes text.new) result }
{
    match peer(alloc, world, instance, partition, sequence) {
        Ok(file) => tell_found(world, instance, partition, sequence, file, text),
        Err(refusal) => Err(refusal),
    }
}

#[tactic(auto, using(rt_macros::proofs::Doing::does_then, rt_macros::proofs::Doing::does_refused, rt_macros::proofs::Doing::does_told))]
fn tell_found(
    world: &mut World,
    instance: Instance,
    partition: Partition,
    sequence: Sequence,
    file: Option<PeerFile>,
    text: &mut String,
) -> Result<(), Refusal>
    requires unspent { world.old.spent ≡ false }
    requires empty { string_bytes text.old ≡ [] }
    ensures { DoesText (Counts (found_text instance partition sequence file)) world.old.state world.new (string_bytes text.new) result }
{
    pass(world)?;
    write_found(text, instance, partition, sequence, file)?;
    Ok(())
}

fn write_found(
    text: &mut String,
    instance: Instance,
    partition: Partition,
    sequence: Sequence,
    file: Option<PeerFile>,
) -> Result<(), AllocError>
    ensures { OnOk result (string_bytes text.new ≡ string_bytes text.old ++ found_text instance partition sequence file) }
{
    match file {
        Some(file) => write_peer(text, instance, partition, sequence, file.from, file.rows),
        None => write_nopeer(text, instance, partition, sequence),
    }
}

/// `rehearse servers=N keep=K`: plans a rebalance from the present ideal state.
#[tactic(auto, using(crate::proofs::Rehearsals::rehearse_found, crate::proofs::Rehearsals::rehearse_refused))]
pub(crate) fn play_rehearse(
    alloc: Global,
    world: &mut World,
    rehearsing: &mut Rehearsing,
    servers: u64,
    keep: u64,
    text: &mut String,
) -> Result<(), Refusal>
    requires unspent { world.old.spent ≡ false }
    requires empty { string_bytes text.old ≡ [] }
    ensures { DoesChange (RehearseTold servers keep rehearsing.old) world.old.state world.new (string_bytes text.new) rehearsing.new result }
{
    let planned = rehearsing.plan(alloc, world, servers, keep)?;
    tell_planned(world, planned, text)
}

#[tactic(auto, using(rt_macros::proofs::Doing::does_then, rt_macros::proofs::Doing::does_refused, rt_macros::proofs::Doing::does_told))]
fn tell_planned(world: &mut World, planned: Planned, text: &mut String) -> Result<(), Refusal>
    requires unspent { world.old.spent ≡ false }
    requires empty { string_bytes text.old ≡ [] }
    ensures { DoesText (Counts (planned_text planned)) world.old.state world.new (string_bytes text.new) result }
{
    pass(world)?;
    write_planned(text, planned)?;
    Ok(())
}

fn write_planned(text: &mut String, planned: Planned) -> Result<(), AllocError>
    ensures { OnOk result (string_bytes text.new ≡ string_bytes text.old ++ planned_text planned) }
{
    match planned {
        Planned::Plan { steps, moves } => write_plan(text, steps, moves),
        Planned::Refused(number) => write_noplan(text, number),
    }
}

/// `rehearse loaded sK P/Q`: a server has loaded a segment of the plan's present state.
#[tactic(auto, using(crate::proofs::Rehearsals::loaded_refused))]
pub(crate) fn play_loaded(
    world: &mut World,
    rehearsing: &mut Rehearsing,
    instance: Instance,
    partition: Partition,
    sequence: Sequence,
    text: &mut String,
) -> Result<(), Refusal>
    requires unspent { world.old.spent ≡ false }
    requires empty { string_bytes text.old ≡ [] }
    ensures { DoesChange (LoadedTold instance partition sequence rehearsing.old) world.old.state world.new (string_bytes text.new) rehearsing.new result }
{
    let planned = rehearsing.loaded(world, instance, partition, sequence)?;
    tell_loaded(world, planned, text)
}

#[tactic(auto, using(rt_macros::proofs::Doing::does_then, rt_macros::proofs::Doing::does_refused, rt_macros::proofs::Doing::does_told))]
fn tell_loaded(world: &mut World, planned: bool, text: &mut String) -> Result<(), Refusal>
    requires unspent { world.old.spent ≡ false }
    requires empty { string_bytes text.old ≡ [] }
    ensures { DoesText (Counts (rehearsed_text planned)) world.old.state world.new (string_bytes text.new) result }
{
    pass(world)?;
    write_rehearsed(text, planned)?;
    Ok(())
}

/// `rehearse step`: the plan goes on to its next state.
#[tactic(auto, using(crate::proofs::Rehearsals::step_found, crate::proofs::Rehearsals::step_refused))]
pub(crate) fn play_step(
    world: &mut World,
    rehearsing: &mut Rehearsing,
    text: &mut String,
) -> Result<(), Refusal>
    requires unspent { world.old.spent ≡ false }
    requires empty { string_bytes text.old ≡ [] }
    ensures { DoesChange (StepTold rehearsing.old) world.old.state world.new (string_bytes text.new) rehearsing.new result }
{
    let stepped = rehearsing.step()?;
    tell_stepped(world, stepped, text)
}

#[tactic(auto, using(rt_macros::proofs::Doing::does_then, rt_macros::proofs::Doing::does_refused, rt_macros::proofs::Doing::does_told))]
fn tell_stepped(world: &mut World, stepped: Stepped, text: &mut String) -> Result<(), Refusal>
    requires unspent { world.old.spent ≡ false }
    requires empty { string_bytes text.old ≡ [] }
    ensures { DoesText (Counts (stepped_text stepped)) world.old.state world.new (string_bytes text.new) result }
{
    pass(world)?;
    write_stepped(text, stepped)?;
    Ok(())
}

fn write_stepped(text: &mut String, stepped: Stepped) -> Result<(), AllocError>
    ensures { OnOk result (string_bytes text.new ≡ string_bytes text.old ++ stepped_text stepped) }
{
    match stepped {
        Stepped::At { state, steps } => write_at(text, state, steps),
        Stepped::Refused(number) => write_noplan(text, number),
    }
}
