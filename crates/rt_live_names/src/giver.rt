ghost use Rattle.std.specs.Prelude.{◌≡◌, ◌≤◌, ℕ, Some, IfOk, IfSome, OnErr, slice_get};
ghost use Rattle.rt_ground.specs.Histories.{whats};
ghost use Rattle.rt_lists.specs.Members.{Has, IsFront};
ghost use Rattle.rt_model.specs.Checked.{IsQuery};

use crate::Cluster;
use rt_broker::{PieceGiven, PieceGot};
use rt_front::Front;
use rt_model::{Piece, Query};
use std::alloc::{AllocError, Global};

/// A server of a running cluster, as its broker has it while it holds the server's lock. It keeps all that it was asked and
/// gave.
pub trait Giver<K: Cluster> {
    /// Its number among the servers.
    ghost place: { Self → ℕ };

    /// Its number among the servers.
    fn number(&self) -> u32
        ensures { result ≡ place self.now };

    /// Gives what it has of a piece of a query's plan: the range with the groups of its rows, or that it doesn't serve it, or
    /// that it is down. The query is that at this place of the input, and this is the broker's asking of that number. What was
    /// given stands in the front of the broker afterwards. Fails only where memory is refused; nothing is then given.
    fn give(
        &mut self,
        alloc: Global,
        query: &Query,
        at: u32,
        asking: u64,
        piece: Piece,
        front: &mut Front<PieceGiven>,
    ) -> Result<PieceGot, AllocError>
        requires front { front.old.chronicle ≡ K.names.asked (place self.old) }
        requires query { slice_get K.names.queries at ≡ Some query.now }
        requires valid { IsQuery K.names.setup.schema query.now }
        requires piece { IfSome piece.end (λ end. piece.start.0 ≤ end.0) }
        ensures place { place self.new ≡ place self.old }
        ensures name { front.new.chronicle ≡ front.old.chronicle }
        ensures grows { IsFront (whats front.old.seen) (whats front.new.seen) }
        ensures given { IfOk result (λ got. Has (whats front.new.seen)
            (record { query = at; asking = asking; piece = piece; got = got })) }
        ensures err { OnErr result (front.new ≡ front.old) };
}
