use rt_model::Piece;
use rt_server::ServedRows;

/// A piece of a present plan, and what was served of it, if it was.
#[derive(Drop)]
pub struct Found {
    pub piece: Piece,
    pub rows: Option<ServedRows>,
}
