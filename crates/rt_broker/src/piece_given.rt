use crate::PieceGot;
use rt_model::Piece;

/// One asking of a server for a piece, as the server's keeper has it.
#[derive(Drop)]
pub struct PieceGiven {
    /// The query, by its place in the input.
    pub query: u32,
    /// Which asking of that query it was, by the broker's count.
    pub asking: u64,
    /// The piece that was asked for.
    pub piece: Piece,
    /// What came of it there.
    pub got: PieceGot,
}
