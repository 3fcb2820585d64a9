use crate::{PieceAnswer, Plan};
use rt_base::Sequence;
use std::alloc::AllocError;

/// What came of a partition in a query.
#[derive(Drop)]
pub enum Route {
    /// Its metadata wasn't listed yet.
    Untried,
    /// The store failed to list its metadata, so that the partition is missing whole.
    Failed,
    /// Its metadata was listed, and this is its plan.
    Planned(Plan),
}

impl Route {
    ghost use Rattle.std.specs.Prelude.{◌≡◌, OnOk, OnErr};
    ghost use Rattle.rt_broker.specs.Asking.{route_noted};

    /// Notes what a server gave for the piece of a segment, where a plan has it. Where memory runs out, all is as before.
    pub(crate) fn note(&mut self, sequence: Sequence, answer: PieceAnswer) -> Result<(), AllocError>
        ensures ok { OnOk result (self.new ≡ route_noted sequence answer self.old) }
        ensures err { OnErr result (self.new ≡ self.old) }
    {
        match self {
            Route::Planned(plan) => plan.note(sequence, answer),
            Route::Failed => Ok(()),
            Route::Untried => Ok(()),
        }
    }
}
