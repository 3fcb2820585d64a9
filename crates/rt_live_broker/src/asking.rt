ghost use Rattle.std.specs.Prelude.{◌≡◌, IfOk, IsTrue, None, OnErr, Some};
ghost use Rattle.rt_live_broker.specs.Asks.{IsNext, Keeps, answers_of};

use crate::acting::Acting;
use crate::asks::Asks;
use crate::begun::Begun;
use crate::did::BrokerDid;
use crate::giving::give;
use crate::kept::AnswerKept;
use rt_base::{Instance, Offset, Partition, Sequence};
use rt_broker::{Asked, BrokerRefused};
use rt_ground::Naming;
use rt_lists::{Copied, Items};
use rt_live_names::{Cluster, Giver};
use rt_model::{Answer, Key, Node, Piece, Seen, Status};
use rt_store::{Store, StoreRefused};
use std::alloc::{AllocError, Global};
use std::sync::{Mutex, Wait};

/// What a look at a segment's node shows.
#[derive(Clone, Copy, Debug, PartialEq, Eq)]
pub(crate) enum Segment {
    /// It is in progress, or isn't there yet.
    Open,
    /// It is committed up to this offset.
    Committed(Offset),
    Abandoned,
}

/// What is to be done next for a query that is being asked.
#[derive(Clone, Copy, Debug, PartialEq, Eq)]
enum Next {
    Route(Partition),
    Ask(Piece, Instance),
    Answer,
}

impl<R: Wait + Copy, J: Naming, K: Cluster> Acting<R, J, K> {
    /// Looks whether a segment is committed.
    pub(crate) fn look(
        &mut self,
        alloc: Global,
        partition: Partition,
        sequence: Sequence,
    ) -> Result<Segment, AllocError> {
        if !self.diary.has_room() {
            return Ok(Segment::Open);
        }
        let result = self
            .caller
            .store
            .read(alloc, Key::Meta(partition, sequence));
        let told = self.caller.store.front().told();
        let segment = shown(&result);
        let did = BrokerDid::Looked {
            partition,
            sequence,
            told,
            result,
        };
        did.note(&mut self.diary);
        segment
    }

    /// Begins to ask a query, by its place in the input. While one has no first answer, that is the next of these.
    pub(crate) fn begin(&mut self, alloc: Global, at: u32) -> Result<bool, AllocError> {
        if !self.diary.has_room() || self.current.is_some() || self.askings == u64::MAX {
            return Ok(false);
        }
        if !is_next(&self.asks, &self.mids, at) {
            return Ok(false);
        }
        let Some(query) = self.asks.queries.get(at as usize) else {
            return Ok(false);
        };
        let asked = Asked::make(alloc, query.copied(alloc)?, &self.asks.setup)?;
        let asking = self.askings;
        let told = self.caller.store.front().told();
        start(&mut self.current, Begun::of(at, asking, asked));
        self.askings += 1;
        let did = BrokerDid::Asked {
            query: at,
            asking,
            told,
        };
        did.note(&mut self.diary);
        Ok(true)
    }

    /// Goes on with the query that is being asked: routes a partition, asks a server for a piece, or answers.
    pub(crate) fn go_on<S: Giver<K>>(
        &mut self,
        rt: &R,
        alloc: Global,
        seats: &[Mutex<S>],
    ) -> Result<bool, AllocError> {
        match self.next() {
            Some(Next::Route(partition)) => self.route(alloc, partition),
            Some(Next::Ask(piece, from)) => self.ask(rt, alloc, seats, piece, from),
            Some(Next::Answer) => self.answer(rt, alloc),
            None => Ok(false),
        }
    }

    // What is to be done next for the query that is being asked.
    fn next(&mut self) -> Option<Next> {
        let Some(begun) = &mut self.current else {
            return None;
        };
        if let Some(partition) = begun.untried(&self.asks.setup) {
            return Some(Next::Route(partition));
        }
        match begun.next(&self.asks.setup) {
            Some((piece, from)) => Some(Next::Ask(piece, from)),
            None => Some(Next::Answer),
        }
    }

    // Routes a partition.
    fn route(&mut self, alloc: Global, partition: Partition) -> Result<bool, AllocError> {
        if !self.diary.has_room() || partition.0 >= self.asks.setup.partitions {
            return Ok(false);
        }
        let Some(begun) = &mut self.current else {
            return Ok(false);
        };
        let result = begun.route(alloc, partition, &mut self.caller.store);
        let told = self.caller.store.front().told();
        let did = BrokerDid::Routed {
            partition,
            told,
            result,
        };
        did.note(&mut self.diary);
        match result {
            Ok(_count) => Ok(true),
            Err(refused) => hand_on(refused),
        }
    }

    // Asks a server for a piece, and notes what it gave.
    fn ask<S: Giver<K>>(
        &mut self,
        rt: &R,
        alloc: Global,
        seats: &[Mutex<S>],
        piece: Piece,
        from: Instance,
    ) -> Result<bool, AllocError> {
        if !self.diary.has_room() {
            return Ok(false);
        }
        let Some(begun) = &mut self.current else {
            return Ok(false);
        };
        let got = give::<R, K, S>(rt, alloc, seats, &mut self.feeds, begun, piece, from)?;
        let did = BrokerDid::Noted { piece, from, got };
        self.diary.note(&did);
        match begun.note(did) {
            Ok(()) => Ok(true),
            Err(refused) => hand_on(refused),
        }
    }

    // Answers the query that is being asked.
    fn answer(&mut self, rt: &R, alloc: Global) -> Result<bool, AllocError> {
        if !self.diary.has_room() {
            return Ok(false);
        }
        let Some(begun) = &self.current else {
            return Ok(false);
        };
        let answer = begun.answer(rt, alloc)?;
        let kept = keep(
            &self.asks,
            begun.query,
            answer,
            &mut self.mids,
            &mut self.answers,
        )?;
        end(&mut self.current);
        BrokerDid::Answered { kept }.note(&mut self.diary);
        Ok(true)
    }
}

// What the answer of a read shows of a segment.
fn shown(read: &Result<Seen, StoreRefused>) -> Result<Segment, AllocError> {
    match read {
        Ok(seen) => Ok(shown_by(&seen.node)),
        Err(StoreRefused::Memory) => Err(AllocError),
        Err(_refused) => Ok(Segment::Open),
    }
}

fn shown_by(node: &Node) -> Segment {
    match node {
        Node::Meta(meta) => shown_of(&meta.status),
        _other => Segment::Open,
    }
}

fn shown_of(status: &Status) -> Segment {
    match status {
        Status::InProgress => Segment::Open,
        Status::Done(commit) => Segment::Committed(commit.end),
        Status::Abandoned => Segment::Abandoned,
    }
}

// Hands on want of memory. Nothing else refuses a broker that asks what is due, of a store that meets no fault.
fn hand_on(refused: BrokerRefused) -> Result<bool, AllocError> {
    match refused {
        BrokerRefused::Memory => Err(AllocError),
        BrokerRefused::NotDue => Ok(true),
        BrokerRefused::StoreFault => Ok(true),
    }
}

// An asking begins.
fn start(slot: &mut Option<Begun>, begun: Begun)
    ensures { slot.new ≡ Some begun }
{
    *slot = Some(begun);
}

// The asking ends.
fn end(slot: &mut Option<Begun>)
    ensures { slot.new ≡ None }
{
    *slot = None;
}

// Whether the query at this place may be asked: while one has no first answer, the next of these alone.
fn is_next(asks: &Asks, mids: &Items<Answer>, at: u32) -> bool
    ensures { IsTrue result → IsNext asks.now mids.now at }
{
    let is_first_round = asks.journal && mids.len() < asks.queries.len();
    !is_first_round || at as usize == mids.len()
}

// Keeps an answer to the query at this place: as its first one in the first round, and then as that which is printed,
// where it leaves nothing out; else it is let go.
fn keep(
    asks: &Asks,
    query: u32,
    answer: Answer,
    mids: &mut Items<Answer>,
    answers: &mut Items<Answer>,
) -> Result<AnswerKept, AllocError>
    requires { IsNext asks.now mids.old query }
    ensures kept { IfOk result (λ kept. Keeps asks.now query answer kept
        (answers_of mids.old answers.old) (answers_of mids.new answers.new)) }
    ensures none { OnErr result (answers_of mids.new answers.new ≡ answers_of mids.old answers.old) }
{
    if asks.journal && mids.len() < asks.queries.len() {
        mids.push(answer)?;
        return Ok(AnswerKept::First);
    }
    if query as usize == answers.len() && asks.is_whole(&answer) {
        answers.push(answer)?;
        return Ok(AnswerKept::Last);
    }
    Ok(AnswerKept::Again)
}
