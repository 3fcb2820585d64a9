ghost use Rattle.std.specs.Prelude.{◌≡◌, ◌≤◌, Some, IfOk, IfSome, IsTrue, slice_get};
ghost use Rattle.rt_broker.specs.IsAskedBy.{GivesMore};
ghost use Rattle.rt_broker.specs.Noting.{FitsPiece, IsRangeOf};
ghost use Rattle.rt_lists.specs.Members.{Has};
ghost use Rattle.rt_live_broker.specs.Feeds.{AreFeeds};
ghost use Rattle.rt_live_names.specs.BrokerPart.{given_by};
ghost use Rattle.rt_model.specs.Checked.{IsQuery};

use crate::begun::Begun;
use rt_base::{Instance, Range};
use rt_broker::{PieceGiven, PieceGot};
use rt_front::Front;
use rt_link::never;
use rt_live_names::{Cluster, Giver};
use rt_model::Piece;
use std::alloc::{AllocError, Global};
use std::sync::{Mutex, Wait};

/// Asks a server for a piece in an asking of a query, under that server's lock. What it gave then stands in the front
/// of what that server was asked. Fails only where memory is refused.
pub(crate) fn give<R: Wait, K: Cluster, S: Giver<K>>(
    rt: &R,
    alloc: Global,
    seats: &[Mutex<S>],
    feeds: &mut Vec<Front<PieceGiven>>,
    begun: &Begun,
    piece: Piece,
    from: Instance,
) -> Result<PieceGot, AllocError>
    requires feeds { AreFeeds K.names feeds.old.items }
    requires query { slice_get K.names.queries begun.now.query ≡ Some begun.now.asked.query }
    requires valid { IsQuery K.names.setup.schema begun.now.asked.query }
    ensures feeds { AreFeeds K.names feeds.new.items }
    ensures more { GivesMore (given_by feeds.old.items) (given_by feeds.new.items) }
    ensures given { IfOk result (λ got. Has (given_by feeds.new.items from.0)
        (record { query = begun.now.query; asking = begun.now.asking; piece = piece; got = got })) }
    ensures fits { IfOk result (λ got. FitsPiece piece got) }
{
    let place = from.0 as usize;
    let Some(seat) = seats.get(place) else {
        return never(rt);
    };
    let Some(front) = feeds.get_mut(place) else {
        return never(rt);
    };
    let mut seat = seat.lock(rt);
    if seat.number() != from.0 || !is_ordered(piece) {
        return never(rt);
    }
    let got = seat.give(
        alloc,
        begun.asked.query(),
        begun.query,
        begun.asking,
        piece,
        front,
    )?;
    if !fits(piece, &got) {
        return never(rt);
    }
    Ok(got)
}

// Whether a piece doesn't end before its start.
fn is_ordered(piece: Piece) -> bool
    ensures { IsTrue result → IfSome piece.end (λ end. piece.start.0 ≤ end.0) }
{
    match piece.end {
        Some(end) => piece.start <= end,
        None => true,
    }
}

// Whether what was given, if it was served, is the piece.
fn fits(piece: Piece, got: &PieceGot) -> bool
    ensures { IsTrue result → FitsPiece piece got.now }
{
    match got {
        PieceGot::Served(served) => is_range_of(piece, served.range),
        PieceGot::NotServed => true,
        PieceGot::Down => true,
    }
}

// Whether a range is that of a piece: from its start, to its end or to some offset where it has none.
fn is_range_of(piece: Piece, range: Range) -> bool
    ensures { IsTrue result → IsRangeOf piece range }
{
    let ends = match piece.end {
        Some(end) => range.end == end,
        None => true,
    };
    ends && range.start == piece.start && range.start <= range.end
}
