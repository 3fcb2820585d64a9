//! The broker's queries, piece by piece.
ghost use Rattle.std.specs.Prelude.{◌≡◌, ◌<◌, true, length, IfOk, Some};
ghost use Rattle.rt_broker.specs.Asking.{Asking, is_answer_due};
ghost use Rattle.rt_state.specs.Finding.{query_at};
ghost use Rattle.rt_state.specs.Queries.{
  ask_due,
  route_due,
  piece_due,
  answer_due,
  asked,
  AsksRightly,
  GivesPiece,
  IsAnswerOf,
  Routes,
  Pieces,
  Answers,
};
ghost use Rattle.rt_state.specs.Applying.{Applies, comes};
ghost use Rattle.rt_state.specs.IsSafeWorld.{IsSafeWorld};

use rt_base::{Instance, Partition, Sequence};
use rt_broker::{Asked, BrokerRefused, PieceGot};
use rt_events::{Outcome, Refusal};
use rt_lists::Copied;
use rt_model::{Answer, Piece, Query};
use rt_nodes::{note_answer, piece_outcome, route_query};
use rt_state::State;
use std::alloc::{AllocError, Global};

/// A query is asked.
#[tactic(auto, using(rt_state::proofs::NeedsQueries::ask_needs))]
pub(crate) fn ask(state: &mut State, alloc: Global, query: &Query) -> Result<Outcome, Refusal>
    requires { IsSafeWorld state.old }
    ensures { Applies state.old (ask_due state.old) (λ cost. comes (asked state.old query.now cost)) state.new result }
{
    let cost = state.ask_due()?;
    let asked = Asked::make(alloc, query.copied(alloc)?, &state.setup)?;
    let number = state.queries.len() as u32;
    state.queries.push(Some(asked))?;
    state.counts.spend(cost);
    Ok(Outcome::Asked(number))
}

/// A partition of a query is routed.
#[tactic(auto, using(rt_state::proofs::NeedsQueries::route_needs, rt_state::proofs::Asking::query_routed))]
pub(crate) fn route(
    state: &mut State,
    alloc: Global,
    query: u32,
    partition: Partition,
) -> Result<Outcome, Refusal>
    requires { IsSafeWorld state.old }
    ensures { Applies state.old (route_due state.old query partition) (Routes state.old query partition) state.new result }
{
    let cost = state.route_due(query, partition)?;
    let Some(asked) = state.queries.at_mut(query as usize) else {
        unreachable!()
    };
    let outcome = route_query(asked, alloc, partition, &mut state.store)?;
    state.counts.spend(cost);
    Ok(outcome)
}

/// A server is asked for a piece of a query's plan.
#[tactic(auto, using(rt_state::proofs::NeedsQueries::piece_needs, rt_state::proofs::Asking::piece_noted))]
pub(crate) fn piece(
    state: &mut State,
    alloc: Global,
    query: u32,
    partition: Partition,
    sequence: Sequence,
    instance: Instance,
) -> Result<Outcome, Refusal>
    requires { IsSafeWorld state.old }
    ensures { Applies state.old (piece_due state.old query partition sequence instance)
        (Pieces state.old query partition sequence instance) state.new result }
{
    let cost = state.piece_due(query, partition, sequence, instance)?;
    let (piece, got) = ask_server(state, alloc, query, partition, sequence, instance)?;
    let outcome = piece_outcome(&got);
    let Some(asked) = state.queries.at_mut(query as usize) else {
        unreachable!()
    };
    match note_answer(asked, piece, instance, got) {
        Ok(()) => {
            state.counts.spend(cost);
            Ok(outcome)
        }
        Err(_) => {
            drop(outcome);
            Err(Refusal::Memory)
        }
    }
}

// The piece of a segment in a query's plan, and what a server gives for it.
fn ask_server(
    state: &State,
    alloc: Global,
    query: u32,
    partition: Partition,
    sequence: Sequence,
    instance: Instance,
) -> Result<(Piece, PieceGot), AllocError>
    requires there { instance.0 < length state.now.servers }
    requires asks { AsksRightly state.now query partition sequence instance }
    ensures { IfOk result (λ x. GivesPiece state.now query partition sequence instance x.0 x.1) }
{
    let Some(asked) = state.query_of(query) else {
        unreachable!()
    };
    let Some(piece) = asked.piece(partition, sequence) else {
        unreachable!()
    };
    let Some(node) = state.servers.get(instance.0 as usize) else {
        unreachable!()
    };
    let got = node.serve(alloc, piece, asked.query())?;
    Ok((piece, got))
}

/// A query is answered, and is no more there.
#[tactic(auto, using(rt_state::proofs::NeedsQueries::answer_needs, rt_state::proofs::NeedsQueries::still_open, rt_state::proofs::Asking::query_answered))]
pub(crate) fn answer(state: &mut State, alloc: Global, query: u32) -> Result<Outcome, Refusal>
    requires { IsSafeWorld state.old }
    ensures { Applies state.old (answer_due state.old query) (Answers state.old query) state.new result }
{
    let cost = state.answer_due(query)?;
    let answer = answer_of(state, alloc, query)?;
    drop(state.queries.at_mut(query as usize).take());
    state.counts.close_query();
    state.counts.spend(cost);
    Ok(Outcome::Answered(answer))
}

// The answer over what was noted of a query.
fn answer_of(state: &State, alloc: Global, query: u32) -> Result<Answer, AllocError>
    requires { (a : Asking) × (query_at state.now query ≡ Some a) × (is_answer_due a ≡ true) }
    ensures { IfOk result (λ answer. (a : Asking) → query_at state.now query ≡ Some a → IsAnswerOf a answer) }
{
    let Some(asked) = state.query_of(query) else {
        unreachable!()
    };
    match asked.answer(alloc) {
        Ok(answer) => Ok(answer),
        Err(BrokerRefused::NotDue) => unreachable!(),
        Err(BrokerRefused::StoreFault) => unreachable!(),
        Err(BrokerRefused::Memory) => Err(AllocError),
    }
}
