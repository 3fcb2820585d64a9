//! A server gives the broker what it has of a piece.
ghost use Rattle.std.specs.Prelude.{◌≡◌, ◌<◌, ◌≤◌, ◌-◌, ◌^◌, length, Some, IfOk, IfSome, slice_get};
ghost use Rattle.rt_live_server.specs.Acting.{AddsGiven};
ghost use Rattle.rt_live_server.specs.Steps.{GivesBy};
ghost use Rattle.rt_model.specs.Checked.{IsQuery};

use crate::acting::Acting;
use crate::did::ServerDid;
use rt_broker::{PieceGiven, PieceGot};
use rt_entry::ServeRefused;
use rt_ground::Naming;
use rt_live_names::Cluster;
use rt_model::{Piece, Query};
use std::alloc::{AllocError, Global};

impl<R, J: Naming, K: Cluster> Acting<R, J, K> {
    /// Gives what it has of a piece of the query at this place of the input, in the broker's asking of that number.
    /// Fails only where memory is refused; nothing is then given.
    pub(crate) fn give(
        &mut self,
        alloc: Global,
        query: &Query,
        at: u32,
        asking: u64,
        piece: Piece,
    ) -> Result<PieceGiven, AllocError>
        requires room { length self.old.did < 2 ^ 64 - 1 }
        requires query { slice_get K.names.queries at ≡ Some query.now }
        requires valid { IsQuery K.names.setup.schema query.now }
        requires piece { IfSome piece.end (λ end. piece.start.0 ≤ end.0) }
        ensures { AddsGiven self.old self.new at asking piece result }
    {
        let got = self.got(alloc, query, piece)?;
        let did = ServerDid::Gave(PieceGiven {
            query: at,
            asking,
            piece,
            got,
        });
        self.diary.note(&did);
        match did.into_given() {
            Some(given) => Ok(given),
            None => unreachable!(),
        }
    }

    fn got(&self, alloc: Global, query: &Query, piece: Piece) -> Result<PieceGot, AllocError>
        requires valid { IsQuery K.names.setup.schema query.now }
        requires piece { IfSome piece.end (λ end. piece.start.0 ≤ end.0) }
        ensures { IfOk result (λ got. GivesBy self.now.up query.now self.now.server.table piece got) }
    {
        if !self.up {
            return Ok(PieceGot::Down);
        }
        match self.server.serve(alloc, piece, query) {
            Ok(served) => Ok(PieceGot::Served(served)),
            Err(ServeRefused::NotServed { .. }) => Ok(PieceGot::NotServed),
            Err(ServeRefused::Memory) => Err(AllocError),
        }
    }
}
