ghost use Rattle.std.specs.Prelude.{◌≡◌, false};
ghost use Rattle.rt_events.specs.Fits.{Fits};
ghost use Rattle.rt_events.specs.declared.event.Event.TheVariants.{Produce};
ghost use Rattle.rt_macros.specs.Doing.{Attempted, Does, Happens, Passed};
ghost use Rattle.rt_macros.specs.Doing.{PassesOver};

use rt_base::Partition;
use rt_lists::Bytes;
use rt_world::{Event, Outcome, Refusal, World};
use std::alloc::Global;

/// Has an event happen, which is looked at.
#[tactic(auto, using(crate::proofs::Applied::event_happens))]
pub fn apply(alloc: Global, world: &mut World, event: &Event) -> Result<Outcome, Refusal>
    requires unspent { world.old.spent ≡ false }
    requires fits { Fits world.old.state.setup.schema event.now }
    ensures { Does (Happens event.now) world.old.state world.new result }
{
    world.apply(alloc, event)
}

/// Has an event happen.
pub fn act(alloc: Global, world: &mut World, event: Event) -> Result<Outcome, Refusal>
    requires unspent { world.old.spent ≡ false }
    requires fits { Fits world.old.state.setup.schema event }
    ensures { Does (Happens event) world.old.state world.new result }
{
    apply(alloc, world, &event)
}

/// Passes over a line that is no event.
#[tactic(auto, using(crate::proofs::Applied::line_passes))]
pub fn pass(world: &mut World) -> Result<(), Refusal>
    requires { world.old.spent ≡ false }
    ensures { Does PassesOver world.old.state world.new result }
{
    match world.pass() {
        Ok(()) => Ok(()),
        Err(refusal) => Err(refusal),
    }
}

/// Has an event happen whose outcome tells nothing more.
pub fn happen(alloc: Global, world: &mut World, event: Event) -> Result<(), Refusal>
    requires unspent { world.old.spent ≡ false }
    requires fits { Fits world.old.state.setup.schema event }
    ensures { Does (Passed event) world.old.state world.new result }
{
    match act(alloc, world, event) {
        Ok(outcome) => {
            drop(outcome);
            Ok(())
        }
        Err(refusal) => Err(refusal),
    }
}

/// Has a message come to a partition.
#[tactic(auto, using(crate::proofs::Applied::message_refused))]
pub fn produce(
    alloc: Global,
    world: &mut World,
    partition: Partition,
    message: &Bytes,
) -> Result<(), Refusal>
    requires { world.old.spent ≡ false }
    ensures { Does (Passed (Produce partition message.now)) world.old.state world.new result }
{
    match world.produce(alloc, partition, message) {
        Ok(_offset) => Ok(()),
        Err(refusal) => Err(refusal),
    }
}

/// Has an event happen where there is something to do, and notes that it happened.
#[tactic(auto, using(crate::proofs::Doing::does_tried))]
pub fn attempt(alloc: Global, world: &mut World, event: Event, busy: bool) -> Result<bool, Refusal>
    requires unspent { world.old.spent ≡ false }
    requires fits { Fits world.old.state.setup.schema event }
    ensures { Does (Attempted event busy) world.old.state world.new result }
{
    match act(alloc, world, event) {
        Ok(outcome) => {
            drop(outcome);
            Ok(true)
        }
        Err(Refusal::NothingToDo) => Ok(busy),
        Err(Refusal::NoSuchMessage) => Err(Refusal::NoSuchMessage),
        Err(Refusal::NoSuchNode) => Err(Refusal::NoSuchNode),
        Err(Refusal::NodeDown) => Err(Refusal::NodeDown),
        Err(Refusal::Limit(which)) => Err(Refusal::Limit(which)),
        Err(Refusal::Memory) => Err(Refusal::Memory),
    }
}
