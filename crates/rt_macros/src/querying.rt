ghost use Rattle.std.specs.Prelude.{◌≡◌, ◌<◌, false};
ghost use Rattle.rt_model.specs.Checked.{IsQuery};
ghost use Rattle.rt_macros.specs.Doing.{Does};
ghost use Rattle.rt_macros.specs.Querying.{AfterAsking, AnswersNow, AsksAll, AsksAndAnswers, AsksNow, AsksOne, AsksPartition, AsksPiece, AsksReplicas, ByNumber, Queries, RoutesAll};

use crate::acting::{act, happen};
use crate::outcomes::{answer, asked, is_served};
use rt_assign::replica;
use rt_base::Partition;
use rt_model::{Answer, Piece, Query};
use rt_world::{Event, Refusal, World};
use std::alloc::Global;

/// Asks the broker a query, routes it to each partition, asks for each piece until a replica serves it, and answers.
#[tactic(auto, using(crate::proofs::Doing::does_then, crate::proofs::Doing::does_refused, crate::proofs::Doing::does_told))]
pub fn query(alloc: Global, world: &mut World, query: Query) -> Result<Answer, Refusal>
    requires unspent { world.old.spent ≡ false }
    requires fits { IsQuery world.old.state.setup.schema query }
    ensures { Does (Queries query) world.old.state world.new result }
{
    let outcome = act(alloc, world, Event::Ask { query })?;
    by_number(alloc, world, asked(outcome))
}

fn by_number(alloc: Global, world: &mut World, number: Option<u32>) -> Result<Answer, Refusal>
    requires { world.old.spent ≡ false }
    ensures { Does (ByNumber number) world.old.state world.new result }
{
    match number {
        Some(number) => finish_query(alloc, world, number),
        None => Err(Refusal::NothingToDo),
    }
}

// Routes, asks for and answers a query that was asked.
#[tactic(auto, using(crate::proofs::Doing::does_then, crate::proofs::Doing::does_refused, crate::proofs::Doing::does_told))]
fn finish_query(alloc: Global, world: &mut World, number: u32) -> Result<Answer, Refusal>
    requires { world.old.spent ≡ false }
    ensures { Does (AfterAsking number) world.old.state world.new result }
{
    route_all(alloc, world, number)?;
    ask_and_answer(alloc, world, number)
}

#[tactic(auto, using(crate::proofs::Doing::does_then, crate::proofs::Doing::does_refused, crate::proofs::Doing::does_told))]
fn ask_and_answer(alloc: Global, world: &mut World, number: u32) -> Result<Answer, Refusal>
    requires { world.old.spent ≡ false }
    ensures { Does (AsksAndAnswers number) world.old.state world.new result }
{
    ask_all(alloc, world, number)?;
    answer_now(alloc, world, number)
}

#[tactic(auto, using(crate::proofs::Doing::does_then, crate::proofs::Doing::does_refused, crate::proofs::Doing::does_told))]
fn answer_now(alloc: Global, world: &mut World, number: u32) -> Result<Answer, Refusal>
    requires { world.old.spent ≡ false }
    ensures { Does (AnswersNow number) world.old.state world.new result }
{
    let outcome = act(alloc, world, Event::Answer { query: number })?;
    match answer(outcome) {
        Some(answer) => Ok(answer),
        None => Err(Refusal::NothingToDo),
    }
}

#[tactic(auto, using(crate::proofs::Doing::leads_itself))]
fn route_all(alloc: Global, world: &mut World, number: u32) -> Result<(), Refusal>
    requires { world.old.spent ≡ false }
    ensures { Does (RoutesAll number) world.old.state world.new result }
{
    let partitions = world.setup().partitions;
    let mut at = 0;
    while at < partitions {
        let route = Event::Route {
            query: number,
            partition: Partition(at),
        };
        match happen(alloc, world, route) {
            Ok(()) => {}
            Err(refusal) => return Err(refusal),
        }
        at += 1;
    }
    Ok(())
}

#[tactic(auto, using(crate::proofs::Doing::leads_itself))]
fn ask_all(alloc: Global, world: &mut World, number: u32) -> Result<(), Refusal>
    requires { world.old.spent ≡ false }
    ensures { Does (AsksAll number) world.old.state world.new result }
{
    let partitions = world.setup().partitions;
    let mut at = 0;
    while at < partitions {
        match ask_partition(alloc, world, number, Partition(at)) {
            Ok(()) => {}
            Err(refusal) => return Err(refusal),
        }
        at += 1;
    }
    Ok(())
}

// Asks for the pieces of a partition's plan.
#[tactic(auto, using(crate::proofs::Doing::leads_itself))]
fn ask_partition(
    alloc: Global,
    world: &mut World,
    number: u32,
    partition: Partition,
) -> Result<(), Refusal>
    requires { world.old.spent ≡ false }
    ensures { Does (AsksPartition number partition.0 tt) world.old.state world.new result }
{
    let pieces = world.pieces(alloc, number, partition)?;
    for piece in pieces.as_slice() {
        match ask_piece(alloc, world, number, *piece) {
            Ok(()) => {}
            Err(refusal) => return Err(refusal),
        }
    }
    Ok(())
}

// Asks for a piece at its replicas, until one serves it.
#[tactic(auto, using(crate::proofs::Doing::does_then, crate::proofs::Doing::does_refused, crate::proofs::Doing::does_told))]
fn ask_piece(alloc: Global, world: &mut World, number: u32, piece: Piece) -> Result<(), Refusal>
    requires { world.old.spent ≡ false }
    ensures { Does (AsksPiece number piece tt) world.old.state world.new result }
{
    let _served = ask_replicas(alloc, world, number, piece)?;
    Ok(())
}

#[tactic(auto, using(crate::proofs::Doing::leads_itself))]
fn ask_replicas(
    alloc: Global,
    world: &mut World,
    number: u32,
    piece: Piece,
) -> Result<bool, Refusal>
    requires { world.old.spent ≡ false }
    ensures { Does (AsksReplicas number piece) world.old.state world.new result }
{
    let replication = world.setup().table.replication;
    let mut served = false;
    let mut k = 0;
    while k < replication {
        match ask_one(alloc, world, number, piece, k, served) {
            Ok(now) => served = now,
            Err(refusal) => return Err(refusal),
        }
        k += 1;
    }
    Ok(served)
}

// Asks for a piece at one of its replicas, where it isn't served yet.
fn ask_one(
    alloc: Global,
    world: &mut World,
    number: u32,
    piece: Piece,
    k: u32,
    served: bool,
) -> Result<bool, Refusal>
    requires { world.old.spent ≡ false }
    ensures { Does (AsksOne number piece k served) world.old.state world.new result }
{
    if served {
        Ok(true)
    } else {
        ask_now(alloc, world, number, piece, k)
    }
}

#[tactic(auto, using(crate::proofs::Doing::does_then, crate::proofs::Doing::does_refused, crate::proofs::Doing::does_told))]
fn ask_now(
    alloc: Global,
    world: &mut World,
    number: u32,
    piece: Piece,
    k: u32,
) -> Result<bool, Refusal>
    requires { world.old.spent ≡ false }
    ensures { Does (AsksNow number piece k) world.old.state world.new result }
{
    let setup = world.setup();
    let instance = replica(piece.partition, k, setup.table.replication, setup.servers);
    let ask = Event::Piece {
        query: number,
        partition: piece.partition,
        sequence: piece.sequence,
        instance,
    };
    let outcome = act(alloc, world, ask)?;
    Ok(is_served(outcome))
}
