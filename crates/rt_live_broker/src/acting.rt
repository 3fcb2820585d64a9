ghost use Rattle.std.specs.Prelude.{◌≡◌, []};
ghost use Rattle.rt_live_broker.specs.Acting.{IsEndedBroker, IsOfCluster, IsQuiet};
ghost use Rattle.rt_live_broker.specs.Feeds.{AreFeeds};
ghost use Rattle.rt_live_names.specs.Fronts.{fronts};

use crate::asks::Asks;
use crate::begun::Begun;
use crate::did::BrokerDid;
use crate::ended::BrokerEnded;
use rt_broker::PieceGiven;
use rt_diary::Diary;
use rt_front::Front;
use rt_ground::{Caller, Naming};
use rt_lists::Items;
use rt_live_names::Cluster;
use rt_model::Answer;
use std::alloc::{AllocError, Global};
use std::marker::{Model, PhantomData};

/// A broker, its caller, what each server told it, and what it did.
#[derive(Drop)]
pub(crate) struct Acting<R, J: Naming, K: Cluster> {
    pub(crate) caller: Caller<R, J>,
    /// A front of what each server was asked, by the server's number.
    pub(crate) feeds: Vec<Front<PieceGiven>>,
    pub(crate) asks: Asks,
    pub(crate) current: Option<Begun>,
    /// How many askings it has begun.
    pub(crate) askings: u64,
    pub(crate) mids: Items<Answer>,
    pub(crate) answers: Items<Answer>,
    pub(crate) diary: Diary<BrokerDid>,
    pub(crate) of: PhantomData<K>,
}

impl<R, J: Naming, K: Cluster> Model for Acting<R, J, K> {
    ghost use Rattle.rt_live_broker.specs.Acting.{ActingNow};
    ghost use Rattle.rt_model.specs.contracts.query.Query.{the_row as query_row};
    ghost use Rattle.std.specs.Coded.{codes};

    ghost Value = { ActingNow };

    ghost coded = { Prim.hlevel (codes, query_row.coded) };

    ghost use Rattle.rt_live_broker.specs.Acting.{IsActing};
    ghost use Rattle.rt_live_names.specs.Fronts.{fronts};

    ghost view = { λ a. record {
      fronts = fronts a.caller.store a.caller.deep a.caller.stream;
      fed = a.feeds.items;
      asks = a.asks;
      current = a.current;
      askings = a.askings;
      mids = a.mids;
      answers = a.answers;
      did = a.diary;
    } };

    ghost invariant = { λ a. IsActing J.starting K.names (record {
      fronts = fronts a.caller.store a.caller.deep a.caller.stream;
      fed = a.feeds.items;
      asks = a.asks;
      current = a.current;
      askings = a.askings;
      mids = a.mids;
      answers = a.answers;
      did = a.diary;
    }) };
}

impl<R: Copy, J: Naming, K: Cluster> Acting<R, J, K> {
    /// A broker that has asked nothing yet, of a caller that has seen nothing of the store.
    pub(crate) fn of(
        alloc: Global,
        caller: Caller<R, J>,
        feeds: Vec<Front<PieceGiven>>,
        asks: Asks,
    ) -> Result<Acting<R, J, K>, AllocError>
        requires cluster { IsOfCluster J.starting K.names asks }
        requires quiet { IsQuiet K.names (fronts caller.store caller.deep caller.stream) }
        requires unseen { caller.store.seen ≡ [] }
        requires feeds { AreFeeds K.names feeds.items }
    {
        Ok(Acting {
            caller,
            feeds,
            asks,
            current: None,
            askings: 0,
            mids: Items::new(alloc),
            answers: Items::new(alloc),
            diary: Diary::new(alloc)?,
            of: PhantomData,
        })
    }

    /// What it leaves when it has ended.
    pub(crate) fn into_ended(self) -> BrokerEnded<R, J>
        ensures { IsEndedBroker K.names (fronts result.caller.store result.caller.deep result.caller.stream)
            result.feeds.items result.mids result.answers }
    {
        let Acting {
            caller,
            feeds,
            mids,
            answers,
            ..
        } = self;
        BrokerEnded {
            caller,
            feeds,
            mids,
            answers,
        }
    }
}

impl<R, J: Naming, K: Cluster> Acting<R, J, K> {
    /// Whether a query is being asked.
    pub(crate) fn is_asking(&self) -> bool {
        self.current.is_some()
    }

    /// The query that is to have its first answer, by its place in the input.
    pub(crate) fn next_first(&self) -> Option<u32> {
        if !self.asks.journal {
            return None;
        }
        next_of(self.mids.len(), self.asks.queries.len())
    }

    /// The query that is to have the answer which is printed, by its place in the input.
    pub(crate) fn next_last(&self) -> Option<u32> {
        next_of(self.answers.len(), self.asks.queries.len())
    }
}

// The place behind so many of a count of queries, where there is one.
fn next_of(answered: usize, queries: usize) -> Option<u32> {
    if answered >= queries {
        return None;
    }
    u32::try_from(answered).ok()
}
