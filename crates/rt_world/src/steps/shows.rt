//! Nodes of the store are looked at, which is no call of it.
ghost use Rattle.std.specs.Prelude.{◌≡◌, IfOk};
ghost use Rattle.rt_model.specs.History.{value_of};
ghost use Rattle.rt_state.specs.Shows.{show_meta_due, show_ideal_due, meta_shown, ideal_shown};
ghost use Rattle.rt_state.specs.Applying.{Applies, comes};
ghost use Rattle.rt_state.specs.IsSafeWorld.{IsSafeWorld};

use rt_base::{Partition, Sequence};
use rt_events::{Outcome, Refusal};
use rt_lists::Copied;
use rt_model::{Key, Seen};
use rt_state::State;
use std::alloc::{AllocError, Global};

/// The metadata of a segment is looked at.
#[tactic(auto, using(rt_state::proofs::NeedsNodes::show_needs))]
pub(crate) fn show_meta(
    state: &mut State,
    alloc: Global,
    partition: Partition,
    sequence: Sequence,
) -> Result<Outcome, Refusal>
    requires { IsSafeWorld state.old }
    ensures { Applies state.old (show_meta_due state.old partition)
        (λ cost. comes (meta_shown state.old partition sequence cost)) state.new result }
{
    let cost = state.show_meta_due(partition)?;
    let shown = shown(state, alloc, Key::Meta(partition, sequence))?;
    state.counts.spend(cost);
    Ok(Outcome::Shown(shown))
}

/// The ideal state is looked at.
#[tactic(auto, using(rt_state::proofs::Dues::priced_spends))]
pub(crate) fn show_ideal(state: &mut State, alloc: Global) -> Result<Outcome, Refusal>
    requires { IsSafeWorld state.old }
    ensures { Applies state.old (show_ideal_due state.old) (λ cost. comes (ideal_shown state.old cost)) state.new result }
{
    let cost = state.show_ideal_due()?;
    let shown = shown(state, alloc, Key::Ideal)?;
    state.counts.spend(cost);
    Ok(Outcome::Shown(shown))
}

// The node of a key, where there is one.
fn shown(state: &State, alloc: Global, key: Key) -> Result<Option<Seen>, AllocError>
    ensures { IfOk result (λ shown. shown ≡ value_of state.now.store.writes key) }
{
    match state.store.value(key) {
        Some(seen) => Ok(Some(seen.copied(alloc)?)),
        None => Ok(None),
    }
}
