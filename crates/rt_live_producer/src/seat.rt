ghost use Rattle.std.specs.Prelude.{◌≡◌, true};
ghost use Rattle.rt_ground.specs.Callers.{new_caller};
ghost use Rattle.rt_live_names.specs.Fronts.{fronts, producer_caller};
ghost use Rattle.rt_live_names.specs.OtherParts.{IsProducerPart};

use crate::ended::ProducerEnded;
use rt_ground::{Appended, Caller, Naming};
use rt_link::never;
use rt_lists::Items;
use rt_live_names::{Cluster, Ends};
use rt_stream::FeedRefused;
use std::alloc::Global;
use std::marker::{Model, PhantomData};
use std::sync::Wait;

/// The producer of a running cluster: its caller, and the messages that it has still to append. A message is let go
/// once it is appended.
#[derive(Drop)]
pub struct ProducerSeat<R, J: Naming, K: Cluster> {
    caller: Caller<R, J>,
    /// The messages that are left, the next one last.
    rows: Items<Appended>,
    of: PhantomData<K>,
}

impl<R, J: Naming, K: Cluster> Model for ProducerSeat<R, J, K> {
    ghost use Rattle.rt_live_producer.specs.Producing.{Producing};

    ghost Value = { Producing };

    ghost use Rattle.rt_live_names.specs.Fronts.{fronts};
    ghost use Rattle.rt_live_producer.specs.Producing.{IsProducing};
    ghost use mathlib.Core.List.{reverse};

    ghost view = { λ p. record {
      fronts = fronts p.caller.store p.caller.deep p.caller.stream;
      left = reverse p.rows;
    } };

    ghost invariant = { λ p. IsProducing K.names (record {
      fronts = fronts p.caller.store p.caller.deep p.caller.stream;
      left = reverse p.rows;
    }) };
}

impl<R: Copy, J: Naming, K: Cluster> ProducerSeat<R, J, K> {
    /// A producer of these messages, of a caller that has seen nothing. Takes no memory.
    pub fn of(caller: Caller<R, J>, rows: Items<Appended>) -> ProducerSeat<R, J, K>
        requires caller { caller ≡ new_caller J.names producer_caller }
        requires rows { rows ≡ K.names.rows }
    {
        let mut rows = rows;
        rows.as_mut_slice().reverse();
        ProducerSeat {
            caller,
            rows,
            of: PhantomData,
        }
    }
}

impl<R: Wait + Copy, J: Naming, K: Cluster> ProducerSeat<R, J, K> {
    /// One turn: it appends the next message. Answers whether it did; where memory is refused the run ends, and the
    /// message is still to be appended.
    pub fn turn(&mut self, rt: &R, alloc: Global, ends: &Ends) -> bool {
        let Some(place) = self.rows.len().checked_sub(1) else {
            ends.append_all();
            return false;
        };
        let Some(row) = self.rows.get(place) else {
            return false;
        };
        match self
            .caller
            .stream
            .append(alloc, row.partition, row.message.as_slice())
        {
            Ok(_offset) => {
                self.rows.truncate(place);
                true
            }
            Err(FeedRefused::Memory) => {
                ends.refuse();
                false
            }
            Err(_other) => never(rt),
        }
    }
}

impl<R: Copy, J: Naming, K: Cluster> ProducerSeat<R, J, K> {
    /// What it leaves when it has ended.
    pub fn into_ended(self) -> ProducerEnded<R, J>
        ensures { result.all_appended ≡ true
            → IsProducerPart K.names (fronts result.caller.store result.caller.deep result.caller.stream) }
    {
        let ProducerSeat { caller, rows, .. } = self;
        ProducerEnded {
            caller,
            all_appended: rows.is_empty(),
        }
    }
}
