use rt_agg::Served;

/// What came of asking a server for a piece.
#[derive(Drop)]
pub enum PieceGot {
    /// The range that it served, and the groups of its rows.
    Served(Served),
    /// The server doesn't hold the piece's rows.
    NotServed,
    /// The server was down.
    Down,
}

impl PieceGot {
    ghost use Rattle.std.specs.Prelude.{◌≡◌, IfSome, IfNone, Some, None};
    ghost use Rattle.rt_broker.specs.Asking.{served_by};

    /// What was served, if something was.
    pub fn served(&self) -> Option<&Served>
        ensures some { IfSome result (λ served. served_by self.now ≡ Some served.now) }
        ensures none { IfNone result (served_by self.now ≡ None) }
    {
        match self {
            PieceGot::Served(served) => Some(served),
            PieceGot::NotServed => None,
            PieceGot::Down => None,
        }
    }
}
