use crate::PieceGot;
use rt_agg::Served;
use rt_base::Instance;
use rt_lists::Items;
use rt_model::Piece;

/// A server that was asked for a piece, and what came of it.
#[derive(Drop)]
pub struct PieceAnswer {
    pub from: Instance,
    pub got: PieceGot,
}

/// A piece of a plan, and the servers that were asked for it, in order.
#[derive(Drop)]
pub struct PieceAsked {
    pub piece: Piece,
    pub answers: Items<PieceAnswer>,
}

impl PieceAsked {
    ghost use Rattle.std.specs.Prelude.{◌≡◌, IfSome, IfNone, Some, None};
    ghost use Rattle.rt_broker.specs.Asking.{served_in, was_asked};

    /// What was served of the piece, if a server served it.
    pub fn served(&self) -> Option<&Served>
        ensures some { IfSome result (λ served. served_in self.now.answers ≡ Some served.now) }
        ensures none { IfNone result (served_in self.now.answers ≡ None) }
    {
        for answer in self.answers.as_slice() {
            match answer.got.served() {
                Some(served) => return Some(served),
                None => (),
            }
        }
        None
    }

    /// Whether a server was asked for the piece.
    pub fn was_asked(&self, from: Instance) -> bool
        ensures { result ≡ was_asked self.now.answers from }
    {
        for answer in self.answers.as_slice() {
            if answer.from == from {
                return true;
            }
        }
        false
    }
}
