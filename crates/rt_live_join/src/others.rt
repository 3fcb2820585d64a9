ghost use Rattle.std.specs.Prelude.{◌≡◌};
ghost use Rattle.rt_live_join.specs.Left.{fronts_by};
ghost use Rattle.rt_live_join.specs.Leaving.{AreOthersLeft, IsRepairerLeft};
ghost use Rattle.rt_live_names.specs.OtherParts.{IsProducerPart};

use crate::waiting::wait_unless;
use rt_ground::{Caller, Naming};
use rt_live_broker::{BrokerEnded, BrokerSeat};
use rt_live_controller::{RepairerEnded, RepairerSeat};
use rt_live_names::Cluster;
use rt_live_producer::{ProducerEnded, ProducerSeat};
use std::sync::Wait;

/// What the nodes left that post nothing.
#[derive(Drop)]
pub(crate) struct Others<R, J: Naming> {
    pub(crate) producer: Caller<R, J>,
    pub(crate) repairer: Caller<R, J>,
    pub(crate) broker: BrokerEnded<R, J>,
}

/// What the nodes have left that post nothing. The producer has appended all messages, so that it never waits.
pub(crate) fn ended_others<R: Wait + Copy, J: Naming, K: Cluster>(
    rt: &R,
    producer: ProducerSeat<R, J, K>,
    repairer: RepairerSeat<R, J, K>,
    broker: BrokerSeat<R, J, K>,
) -> Others<R, J>
    ensures { AreOthersLeft K.names result }
{
    let producer = ended_producer(rt, producer);
    let repairer = ended_repairer(repairer);
    let broker = broker.into_ended();
    Others {
        producer,
        repairer,
        broker,
    }
}

// The producer's caller.
fn ended_producer<R: Wait + Copy, J: Naming, K: Cluster>(
    rt: &R,
    seat: ProducerSeat<R, J, K>,
) -> Caller<R, J>
    ensures { IsProducerPart K.names (fronts_by result) }
{
    let ProducerEnded {
        caller,
        all_appended,
    } = seat.into_ended();
    wait_unless(rt, all_appended);
    caller
}

// The repairer's caller.
fn ended_repairer<R: Copy, J: Naming, K: Cluster>(seat: RepairerSeat<R, J, K>) -> Caller<R, J>
    ensures { IsRepairerLeft K.names (fronts_by result) }
{
    caller_of(seat.into_ended())
}

// Lets all else go.
fn caller_of<R: Copy, J: Naming>(ended: RepairerEnded<R, J>) -> Caller<R, J>
    ensures { result ≡ ended.caller }
{
    let RepairerEnded {
        caller,
        repair,
        diary,
    } = ended;
    drop(repair);
    drop(diary);
    caller
}
