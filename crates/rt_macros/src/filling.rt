ghost use Rattle.std.specs.Prelude.{◌≡◌, false, IfOk};
ghost use Rattle.rt_macros.specs.Doing.{Does, EachFrom};
ghost use Rattle.rt_macros.specs.Filling.{Fills, FillsOne, numbered_text};

use crate::acting::produce;
use rt_base::{Offset, Partition};
use rt_lists::Bytes;
use rt_world::{Refusal, World};
use std::alloc::{AllocError, Global};

/// Has so many numbered messages come to a partition, and tells its length behind them.
#[tactic(auto, using(crate::proofs::Doing::does_then, crate::proofs::Doing::does_refused, crate::proofs::Doing::does_told))]
pub fn fill(
    alloc: Global,
    world: &mut World,
    partition: Partition,
    count: u64,
) -> Result<Offset, Refusal>
    requires { world.old.spent ≡ false }
    ensures { Does (Fills partition count) world.old.state world.new result }
{
    if partition.0 >= world.setup().partitions {
        return Err(Refusal::NoSuchNode);
    }
    if count == 0 {
        return Err(Refusal::NothingToDo);
    }
    fill_more(alloc, world, partition, count)?;
    Ok(world.length(partition))
}

#[tactic(auto, using(crate::proofs::Doing::leads_itself))]
fn fill_more(
    alloc: Global,
    world: &mut World,
    partition: Partition,
    count: u64,
) -> Result<(), Refusal>
    requires { world.old.spent ≡ false }
    ensures { Does (EachFrom (FillsOne partition) 0 count tt) world.old.state world.new result }
{
    let mut done = 0;
    while done < count {
        match fill_one(alloc, world, partition) {
            Ok(()) => {}
            Err(refusal) => return Err(refusal),
        }
        done += 1;
    }
    Ok(())
}

// One message more, which says its own offset.
fn fill_one(alloc: Global, world: &mut World, partition: Partition) -> Result<(), Refusal>
    requires { world.old.spent ≡ false }
    ensures { Does (FillsOne partition 0 tt) world.old.state world.new result }
{
    let offset = world.length(partition);
    let message = numbered_text(alloc, offset)?;
    produce(alloc, world, partition, &message)
}

fn numbered_text(alloc: Global, offset: Offset) -> Result<Bytes, AllocError>
    ensures { IfOk result (λ text. text ≡ numbered_text offset) }
{
    let offset = offset.0;
    let text = format!(in alloc; "{{\"k\":\"a\",\"v\":{offset}}}")?;
    Bytes::copied_from(alloc, text.as_bytes())
}
