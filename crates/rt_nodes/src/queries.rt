//! What the broker and the servers do for a query.
ghost use Rattle.std.specs.Prelude.{◌≡◌, ◌<◌, ◌≤◌, false, length, IfOk, IfSome, OnOk, OnErr, Ok};
ghost use Rattle.rt_model.specs.Checked.{IsQuery};
ghost use Rattle.rt_broker.specs.Asking.{is_tried};
ghost use Rattle.rt_broker.specs.Noting.{FitsPiece, IsNoteDue, Notes};
ghost use Rattle.rt_nodes.specs.Queries.{piece_outcome, Gives, QueryRoutes};

use crate::ServerNode;
use rt_base::{Instance, Partition};
use rt_broker::{Asked, BrokerRefused, PieceGot};
use rt_events::Outcome;
use rt_model::{Piece, Query};
use rt_server::ServeRefused;
use rt_store::MemoryStore;
use std::alloc::{AllocError, Global};

impl ServerNode {
    /// What a server gives for a piece of a query's plan. Fails only where memory is refused.
    pub fn serve(&self, alloc: Global, piece: Piece, query: &Query) -> Result<PieceGot, AllocError>
        requires query { IsQuery self.now.server.setup.schema query.now }
        requires piece { IfSome piece.end (λ end. piece.start.0 ≤ end.0) }
        ensures { IfOk result (Gives self.now piece query.now) }
    {
        if !self.up {
            return Ok(PieceGot::Down);
        }
        match self.server.serve(alloc, piece, query) {
            Ok(served) => Ok(PieceGot::Served(served)),
            Err(ServeRefused::NotServed { .. }) => Ok(PieceGot::NotServed),
            Err(ServeRefused::Memory) => Err(AllocError),
        }
    }
}

/// Lists the metadata of a partition, and notes its plan, unless the store fails. Fails only where memory is refused, with
/// nothing done.
#[tactic(auto, using(crate::proofs::Unchanged::routes_out))]
pub fn route_query(
    asked: &mut Asked,
    alloc: Global,
    partition: Partition,
    store: &mut MemoryStore,
) -> Result<Outcome, AllocError>
    requires there { partition.0 < length asked.old.routes }
    requires due { is_tried asked.old partition ≡ false }
    ensures ok { IfOk result (QueryRoutes partition store.old store.new asked.old asked.new) }
    ensures err { OnErr result ((asked.new ≡ asked.old) × (store.new ≡ store.old)) }
{
    match asked.route(alloc, partition, store) {
        Ok(pieces) => Ok(Outcome::Routed(pieces)),
        Err(BrokerRefused::StoreFault) => Ok(Outcome::Failed),
        Err(BrokerRefused::NotDue) => unreachable!(),
        Err(BrokerRefused::Memory) => Err(AllocError),
    }
}

/// Notes what a server gave for a piece. Fails only where memory is refused; nothing is noted then.
pub fn note_answer(
    asked: &mut Asked,
    piece: Piece,
    from: Instance,
    got: PieceGot,
) -> Result<(), AllocError>
    requires fits { FitsPiece piece got }
    requires due { IsNoteDue asked.old piece from }
    ensures ok { OnOk result (Notes asked.old piece from got asked.new (Ok tt)) }
    ensures err { OnErr result (asked.new ≡ asked.old) }
{
    match asked.note_piece(piece, from, got) {
        Ok(()) => Ok(()),
        Err(BrokerRefused::NotDue) => unreachable!(),
        Err(BrokerRefused::StoreFault) => unreachable!(),
        Err(BrokerRefused::Memory) => Err(AllocError),
    }
}

/// What asking a server for a piece came to.
pub fn piece_outcome(got: &PieceGot) -> Outcome
    ensures { result ≡ piece_outcome got.now }
{
    match got {
        PieceGot::Served(served) => Outcome::Served(served.range),
        PieceGot::NotServed => Outcome::NotServed,
        PieceGot::Down => Outcome::NodeDown,
    }
}
