ghost use Rattle.rt_play.specs.Generating.{end_texts, report_texts};
ghost use Rattle.rt_play.specs.Writing.{WritesText, WritesTexts};
ghost use Rattle.rt_report.specs.MacroTexts.{end_text};
ghost use Rattle.rt_world.specs.Reading.{end_in};

use rt_base::{Partition, Sink};
use rt_lines::PlayFault;
use rt_report::write_end;
use rt_world::World;
use rt_writing::write_all;
use std::alloc::Global;

/// Writes how far each partition is committed, and the answer.
pub(crate) fn write_report<K: Sink>(
    alloc: Global,
    world: &World,
    partitions: u32,
    answer: &str,
    sink: &mut K,
) -> Result<(), PlayFault>
    ensures { WritesTexts (report_texts partitions world.now.state answer.now) (K.meaning sink.old) (K.meaning sink.new) result }
{
    match write_ends(alloc, world, partitions, sink) {
        Ok(()) => {}
        Err(fault) => return Err(fault),
    }
    match write_all(sink, answer.as_bytes()) {
        Ok(()) => Ok(()),
        Err(_) => Err(PlayFault::WriteFault),
    }
}

fn write_ends<K: Sink>(
    alloc: Global,
    world: &World,
    partitions: u32,
    sink: &mut K,
) -> Result<(), PlayFault>
    ensures { WritesTexts (end_texts world.now.state 0 partitions) (K.meaning sink.old) (K.meaning sink.new) result }
{
    let mut at = 0;
    while at < partitions {
        match write_one(alloc, world, Partition(at), sink) {
            Ok(()) => {}
            Err(fault) => return Err(fault),
        }
        at += 1;
    }
    Ok(())
}

// Writes how far a partition is committed.
fn write_one<K: Sink>(
    alloc: Global,
    world: &World,
    partition: Partition,
    sink: &mut K,
) -> Result<(), PlayFault>
    ensures { WritesText (end_text partition (end_in world.now.state partition)) (K.meaning sink.old) (K.meaning sink.new) result }
{
    let end = world.end(partition);
    let mut text = String::new(alloc);
    write_end(&mut text, partition, end)?;
    match write_all(sink, text.as_bytes()) {
        Ok(()) => Ok(()),
        Err(_) => Err(PlayFault::WriteFault),
    }
}
