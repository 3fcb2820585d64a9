ghost use Rattle.std.specs.Prelude.{◌≡◌, ◌<◌, All, length};
ghost use Rattle.rt_ground.specs.Callers.{new_caller};
ghost use Rattle.rt_live_broker.specs.Acting.{IsEndedBroker};
ghost use Rattle.rt_live_broker.specs.Feeds.{AreFeeds};
ghost use Rattle.rt_live_names.specs.Fronts.{broker_caller, fronts};
ghost use Rattle.rt_model.specs.Checked.{IsQuery};
ghost use Rattle.rt_model.specs.Setup.{IsSetup};
ghost use Rattle.rt_store.specs.Contents.{starting_of};

use crate::acting::Acting;
use crate::asking::Segment;
use crate::asks::Asks;
use crate::ended::BrokerEnded;
use crate::whole::{lengths_of, whole_ranges};
use rt_base::{Offset, Partition, Sequence};
use rt_broker::PieceGiven;
use rt_diary::Diary;
use rt_front::Front;
use rt_ground::{Appended, Caller, Naming};
use rt_lists::{Copied, Items};
use rt_live_names::{Cluster, Ends, Giver};
use rt_model::{Query, Setup};
use std::alloc::{AllocError, Global};
use std::marker::{Model, PhantomData};
use std::sync::{Mutex, Wait};

/// The broker of a running cluster.
///
/// With a journal it first answers each query once, whatever is missing. When each partition is committed to its end it
/// asks each query anew, until an answer leaves nothing out.
#[derive(Drop)]
pub struct BrokerSeat<R, J: Naming, K: Cluster> {
    acting: Acting<R, J, K>,
    /// How many messages of the input each partition has.
    lengths: Items<Offset>,
    /// The partition that isn't known to be committed to its end, and the segment of it that is looked at next.
    partition: u32,
    sequence: u32,
}

impl<R, J: Naming, K: Cluster> Model for BrokerSeat<R, J, K> {
    ghost use Rattle.rt_live_broker.specs.Acting.{ActingNow};
    ghost use Rattle.rt_model.specs.contracts.query.Query.{the_row as query_row};
    ghost use Rattle.std.specs.Coded.{codes};

    ghost Value = { ActingNow };

    ghost coded = { Prim.hlevel (codes, query_row.coded) };

    ghost view = { λ s. s.acting };
}

impl<R: Copy, J: Naming, K: Cluster> BrokerSeat<R, J, K> {
    /// A broker that has asked nothing yet, of a caller that has seen nothing, with a front of what each server was
    /// asked. Fails only where memory is refused.
    pub fn make(
        alloc: Global,
        setup: &Setup,
        caller: Caller<R, J>,
        feeds: Vec<Front<PieceGiven>>,
        queries: Items<Query>,
        rows: &[Appended],
        journal: bool,
    ) -> Result<BrokerSeat<R, J, K>, AllocError>
        requires setup { (setup.now ≡ K.names.setup) × IsSetup setup.now × (starting_of setup.now ≡ J.starting) }
        requires caller { caller ≡ new_caller J.names (broker_caller K.names.setup) }
        requires feeds { AreFeeds K.names feeds.items }
        requires queries { (queries ≡ K.names.queries) × All (IsQuery setup.now.schema) queries }
        requires rows { rows.now ≡ K.names.rows }
    {
        let lengths = lengths_of(alloc, setup.partitions, rows)?;
        let asks = Asks {
            setup: setup.copied(alloc)?,
            queries,
            whole: whole_ranges(alloc, lengths.as_slice())?,
            journal,
        };
        Ok(BrokerSeat {
            acting: Acting::of(alloc, caller, feeds, asks)?,
            lengths,
            partition: 0,
            sequence: 0,
        })
    }
}

impl<R: Wait + Copy, J: Naming, K: Cluster> BrokerSeat<R, J, K> {
    /// One turn: it begins to ask a query, routes a partition, asks a server for a piece, or answers. Where nothing is
    /// due it looks at most whether one segment more is committed. Answers whether something was done; where memory is
    /// refused the run ends.
    pub fn turn<S: Giver<K>>(
        &mut self,
        rt: &R,
        alloc: Global,
        ends: &Ends,
        seats: &[Mutex<S>],
    ) -> bool {
        match self.act(rt, alloc, ends, seats) {
            Ok(done) => done,
            Err(AllocError) => {
                ends.refuse();
                false
            }
        }
    }

    fn act<S: Giver<K>>(
        &mut self,
        rt: &R,
        alloc: Global,
        ends: &Ends,
        seats: &[Mutex<S>],
    ) -> Result<bool, AllocError> {
        if self.acting.is_asking() {
            return self.acting.go_on(rt, alloc, seats);
        }
        if let Some(at) = self.acting.next_first() {
            return self.acting.begin(alloc, at);
        }
        if !self.is_committed() {
            return self.look(alloc, ends);
        }
        if let Some(at) = self.acting.next_last() {
            return self.acting.begin(alloc, at);
        }
        ends.answer_all();
        Ok(false)
    }

    // Whether each partition is known to be committed to its end.
    fn is_committed(&self) -> bool {
        self.partition as usize >= self.lengths.len()
    }

    // Looks whether one segment more is committed, once all messages are there.
    fn look(&mut self, alloc: Global, ends: &Ends) -> Result<bool, AllocError> {
        if !ends.all_appended() {
            return Ok(false);
        }
        let Some(length) = self.lengths.get(self.partition as usize) else {
            return Ok(false);
        };
        let length = *length;
        if length.0 == 0 {
            self.look_at(self.partition.saturating_add(1), 0);
            return Ok(true);
        }
        let partition = Partition(self.partition);
        match self.acting.look(alloc, partition, Sequence(self.sequence))? {
            Segment::Open => return Ok(false),
            Segment::Committed(end) if end == length => self.look_at(
                self.partition.saturating_add(1),
                0,
            ),
            Segment::Committed(_end) => self.look_at(
                self.partition,
                self.sequence.saturating_add(1),
            ),
            Segment::Abandoned => self.look_at(self.partition, self.sequence.saturating_add(1)),
        }
        Ok(true)
    }

    // The segment that is looked at next.
    fn look_at(&mut self, partition: u32, sequence: u32) {
        self.partition = partition;
        self.sequence = sequence;
    }
}

impl<R: Copy, J: Naming, K: Cluster> BrokerSeat<R, J, K> {
    /// What it leaves when it has ended.
    pub fn into_ended(self) -> BrokerEnded<R, J>
        ensures { IsEndedBroker K.names (fronts result.caller.store result.caller.deep result.caller.stream)
            result.feeds.items result.mids result.answers }
    {
        self.acting.into_ended()
    }
}
