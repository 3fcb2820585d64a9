ghost use Rattle.std.specs.Prelude.{IsTrue};
ghost use Rattle.rt_live_names.specs.Whole.{IsWhole};

use rt_base::{Partition, Range};
use rt_lists::Items;
use rt_model::{Answer, Query, Setup};

/// What a broker asks: the queries of the input, and of which cluster.
#[derive(Drop)]
pub struct Asks {
    pub setup: Setup,
    pub queries: Items<Query>,
    /// What an answer names that leaves nothing out.
    pub whole: Items<(Partition, Range)>,
    /// Whether each query has a first answer, whatever is missing then.
    pub journal: bool,
}

impl Asks {
    /// Whether an answer leaves nothing out.
    pub(crate) fn is_whole(&self, answer: &Answer) -> bool
        ensures { IsTrue result → IsWhole self.now.whole answer.now }
    {
        answer.missing.is_empty() && answer.ranges == self.whole
    }
}
