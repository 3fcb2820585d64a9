ghost use Rattle.std.specs.Prelude.{◌≡◌};
ghost use Rattle.rt_desk.specs.IsDesk.{first_desk};

use rt_dryrun::Rehearsing;
use rt_hybrid::Hybrid;
use rt_lists::Items;
use rt_pause::{ForceJob, Pause};
use rt_upconf::UpsertConfig;
use std::alloc::Global;

/// What a script has beside its world: what its header says of further lines, and what they left.
#[derive(Drop)]
pub struct Desk {
    /// How the table takes one row of each key as its latest, where it does.
    pub upsert: Option<UpsertConfig>,
    /// The offline rows, where the table names a fitting time column.
    pub hybrid: Option<Hybrid>,
    pub pause: Pause,
    /// The force jobs by number.
    pub jobs: Items<ForceJob>,
    /// The rebalance that is rehearsed.
    pub rehearsing: Rehearsing,
}

impl Desk {
    /// The desk that a script begins with, by what its header says. The run isn't paused, no job was started, and no
    /// rebalance is rehearsed.
    pub fn make(alloc: Global, upsert: Option<UpsertConfig>, hybrid: Option<Hybrid>) -> Desk
        ensures { result ≡ first_desk upsert hybrid }
    {
        Desk {
            upsert,
            hybrid,
            pause: Pause::make(),
            jobs: Items::new(alloc),
            rehearsing: Rehearsing::make(),
        }
    }
}
