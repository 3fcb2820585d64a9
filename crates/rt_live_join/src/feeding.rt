ghost use Rattle.std.specs.Prelude.{◌≡◌, ◌∷◌, length};
ghost use Rattle.std.specs.Vec.Iter.{into_iter_items, into_iter_len};
ghost use Rattle.rt_live_join.specs.Feeding.{AreOfOneHistory, WereGiven};
ghost use Rattle.rt_lists.specs.Members.{IsFront};

use rt_broker::PieceGiven;
use rt_front::Front;
use rt_link::never;
use rt_live_server::PieceKeeper;
use std::alloc::Global;
use std::sync::Wait;
use std::vec::IntoIter;

/// Tells each front of the broker by the history of its server: all that it showed is among what that server gave.
/// There is a history for each front, so that it never waits.
pub(crate) fn tell_all<R: Wait>(rt: &R, pieces: Vec<PieceKeeper>, feeds: Vec<Front<PieceGiven>>)
    requires { AreOfOneHistory pieces.items feeds.items }
    ensures { WereGiven pieces.items feeds.items }
{
    let mut pieces = pieces.into_iter();
    for feed in feeds {
        tell(next_pieces(rt, &mut pieces), feed);
    }
}

// The next history. There is one for each front, so that it never waits.
fn next_pieces<R: Wait>(rt: &R, pieces: &mut IntoIter<PieceKeeper, Global>) -> PieceKeeper
    requires { into_iter_len pieces.old ≡ length (into_iter_items pieces.old) }
    ensures items { into_iter_items pieces.old ≡ result ∷ into_iter_items pieces.new }
    ensures left { into_iter_len pieces.new ≡ length (into_iter_items pieces.new) }
{
    match pieces.next() {
        Some(of_server) => of_server,
        None => never(rt),
    }
}

// Tells a front by its history.
fn tell(pieces: PieceKeeper, feed: Front<PieceGiven>)
    requires { feed.chronicle ≡ pieces.chronicle }
    ensures { IsFront feed.seen pieces.log }
{
    let mut pieces = pieces;
    let mut feed = feed;
    pieces.tell(&mut feed);
}
