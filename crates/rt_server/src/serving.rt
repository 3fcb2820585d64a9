//! A server serves pieces of a query's plan.
ghost use Rattle.std.specs.Prelude.{◌≤◌, IfSome};
ghost use Rattle.rt_model.specs.Checked.{IsQuery};
ghost use Rattle.rt_entry.specs.Serving.{AnswersGroups, AnswersRows};
ghost use Rattle.rt_server.specs.Scans.{FitsTable};
ghost use Rattle.rt_server.specs.Serving.{serve};

use crate::Server;
use crate::table::Table;
use rt_agg::Served;
use rt_entry::{ServeRefused, ServedRows};
use rt_model::{Piece, Query};
use std::alloc::Global;

impl Table {
    /// The groups of the rows of a piece that a query takes.
    pub(crate) fn serve(
        &self,
        alloc: Global,
        piece: Piece,
        query: &Query,
    ) -> Result<Served, ServeRefused>
        requires { FitsTable query.now self.now piece.partition piece.sequence }
        ensures { AnswersGroups query.now (serve self.now piece) result }
    {
        match self.entry(piece.partition, piece.sequence) {
            Some(entry) => entry.serve(alloc, piece, query),
            None => Err(ServeRefused::NotServed { reached: None }),
        }
    }

    /// The rows of a piece.
    pub(crate) fn rows(&self, alloc: Global, piece: Piece) -> Result<ServedRows, ServeRefused>
        ensures { AnswersRows (serve self.now piece) result }
    {
        match self.entry(piece.partition, piece.sequence) {
            Some(entry) => entry.rows(alloc, piece),
            None => Err(ServeRefused::NotServed { reached: None }),
        }
    }
}

impl Server {
    /// What is held of a piece: the range, and the groups of its rows that a query takes. NotServed where it isn't held,
    /// with the end up to which its segment is.
    #[tactic(auto, using(crate::proofs::Scans::table_fits))]
    pub fn serve(&self, alloc: Global, piece: Piece, query: &Query) -> Result<Served, ServeRefused>
        requires query { IsQuery self.now.setup.schema query.now }
        requires piece { IfSome piece.end (λ end. piece.start.0 ≤ end.0) }
        ensures { AnswersGroups query.now (serve self.now.table piece) result }
    {
        self.table.serve(alloc, piece, query)
    }

    /// What is held of a piece: the range that [`Server::serve`] gives, and its rows in order.
    pub fn rows(&self, alloc: Global, piece: Piece) -> Result<ServedRows, ServeRefused>
        requires { IfSome piece.end (λ end. piece.start.0 ≤ end.0) }
        ensures { AnswersRows (serve self.now.table piece) result }
    {
        self.table.rows(alloc, piece)
    }
}
