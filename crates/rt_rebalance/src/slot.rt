ghost use Rattle.std.specs.Prelude.{◌≡◌};
ghost use Rattle.rt_rebalance.specs.Planned.{is_there, last_step};

use rt_model::IdealEntry;

/// What a plan does with an instance of a segment. Steps are counted from 1.
#[derive(Clone, Copy)]
pub(crate) enum Turn {
    /// It has the segment in each state.
    Stays,
    /// It has the segment until this step.
    Leaves(usize),
    /// It has the segment from this step on.
    Comes(usize),
}

/// An instance that a segment has in some state of a plan.
#[derive(Clone, Copy)]
pub(crate) struct Slot {
    pub(crate) entry: IdealEntry,
    pub(crate) turn: Turn,
}

impl Turn {
    /// Whether the instance has the segment after so many steps.
    pub(crate) fn is_there(self, steps: usize) -> bool
        ensures { result ≡ is_there steps self }
    {
        match self {
            Turn::Stays => true,
            Turn::Leaves(step) => steps < step,
            Turn::Comes(step) => step <= steps,
        }
    }

    /// The last step that changes anything for the instance, or 0.
    pub(crate) fn last_step(self) -> usize
        ensures { result ≡ last_step self }
    {
        match self {
            Turn::Stays => 0,
            Turn::Leaves(step) | Turn::Comes(step) => step,
        }
    }
}
