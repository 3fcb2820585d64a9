ghost use Rattle.std.specs.Prelude.{map};
ghost use Rattle.rt_live_end.specs.Meeting.{MeetsOne};
ghost use Rattle.rt_live_join.specs.Left.{fronts_by};
ghost use Rattle.rt_live_join.specs.Meeting.{KnowsGround, MeetsAll, MeetsAndIsTold};
ghost use Rattle.rt_live_join.specs.Putting.{others_of};

use rt_ground::{Caller, Ground, Naming};
use std::sync::Wait;

/// The one caller into which all others were met, the producer's first, and which is then told what there is. Takes no
/// memory.
pub(crate) fn meet_in<R: Wait + Copy, J: Naming>(
    ground: &Ground<R, J>,
    producer: Caller<R, J>,
    servers: Vec<Caller<R, J>>,
    controllers: Vec<Caller<R, J>>,
    repairer: Caller<R, J>,
    broker: Caller<R, J>,
) -> Caller<R, J>
    ensures met { MeetsAndIsTold (fronts_by producer)
        (map fronts_by (others_of servers.items controllers.items repairer broker)) (fronts_by result) }
    ensures ground { KnowsGround J.starting J.callers (fronts_by result) }
{
    let mut caller = meet_others(producer, servers, controllers, repairer, broker);
    ground.tell(&mut caller);
    caller
}

// Takes in all others, in the order of their numbers.
#[tactic(auto, using(crate::proofs::Meets::others_met))]
fn meet_others<R: Copy, J: Naming>(
    producer: Caller<R, J>,
    servers: Vec<Caller<R, J>>,
    controllers: Vec<Caller<R, J>>,
    repairer: Caller<R, J>,
    broker: Caller<R, J>,
) -> Caller<R, J>
    ensures { MeetsAll (fronts_by producer)
        (map fronts_by (others_of servers.items controllers.items repairer broker)) (fronts_by result) }
{
    let caller = meet_all(producer, servers);
    let caller = meet_all(caller, controllers);
    let caller = meet_one(caller, repairer);
    meet_one(caller, broker)
}

// Takes in these, one after the other.
fn meet_all<R: Copy, J: Naming>(caller: Caller<R, J>, others: Vec<Caller<R, J>>) -> Caller<R, J>
    ensures { MeetsAll (fronts_by caller) (map fronts_by others.items) (fronts_by result) }
{
    let mut caller = caller;
    for other in others {
        caller = meet_one(caller, other);
    }
    caller
}

// Takes in this one.
fn meet_one<R: Copy, J: Naming>(caller: Caller<R, J>, other: Caller<R, J>) -> Caller<R, J>
    ensures { MeetsOne (fronts_by caller) (fronts_by other) (fronts_by result) }
{
    let mut caller = caller;
    caller.meet(other);
    caller
}
