//! A world, and what changes it.
ghost use Rattle.std.specs.Prelude.{Err, ◌≡◌, false, IfOk, IsTrue, IsFalse};
ghost use Rattle.rt_model.specs.Setup.{IsSetup};
ghost use Rattle.rt_events.specs.Fits.{Fits};
ghost use Rattle.rt_events.specs.declared.event.Event.TheVariants.{Produce};
ghost use Rattle.rt_state.specs.Start.{start};
ghost use Rattle.rt_state.specs.Stream.{offset_told};
ghost use Rattle.rt_world.specs.Step.{due_of, PassesKept, StepsKept};

mod reading;

use crate::applying::{apply, due};
use crate::steps;
use rt_base::{Offset, Partition};
use rt_events::{Event, Outcome, Refusal};
use rt_lists::Bytes;
use rt_model::Setup;
use rt_state::State;
use std::alloc::{AllocError, Global};
use std::marker::Model;

/// A cluster, event by event. It is safe, until memory runs out at an event; then it is spent.
#[derive(Drop)]
pub struct World {
    state: State,
    spent: bool,
}

impl Model for World {
    ghost use Rattle.std.specs.Prelude.{◌≡◌, false};
    ghost use Rattle.rt_world.specs.Kept.{Kept};
    ghost use Rattle.rt_state.specs.IsSafeWorld.{IsSafeWorld};
    ghost use Rattle.std.specs.Coded.{codes};
    ghost use Rattle.rt_model.specs.contracts.query.Query.{the_row as query_row};

    ghost Value = { Kept };

    ghost coded = { Prim.hlevel (codes, query_row.coded) };

    ghost view = { λ a. record { state = a.state; spent = a.spent } };

    ghost invariant = { λ a. a.spent ≡ false → IsSafeWorld a.state };
}

impl World {
    /// The first world of a cluster within the limits.
    #[tactic(auto, using(crate::proofs::StartSafe::start_safe))]
    pub fn make(alloc: Global, setup: Setup) -> Result<World, AllocError>
        requires { IsSetup setup }
        ensures { IfOk result (λ w. w ≡ record { state = start setup; spent = false }) }
    {
        Ok(World {
            state: State::start(alloc, setup)?,
            spent: false,
        })
    }

    /// What the cluster is made of.
    pub fn setup(&self) -> &Setup
        ensures same { result.now ≡ self.now.state.setup }
        ensures right { IsFalse self.now.spent → IsSetup result.now }
    {
        &self.state.setup
    }

    /// Why an event can't happen now, if it can't: the refusal that `apply` would give. Takes no memory.
    pub fn due(&self, event: &Event) -> Result<(), Refusal>
        ensures due { IsFalse self.now.spent → result ≡ due_of self.now.state event.now }
        ensures spent { IsTrue self.now.spent → result ≡ Err Refusal.Memory }
    {
        if self.spent {
            Err(Refusal::Memory)
        } else {
            due(&self.state, event)
        }
    }

    /// Passes over a line that is no event; it counts as one. A refused one changes nothing.
    #[tactic(auto, using(crate::proofs::Refusing::kept_passed, crate::proofs::KeepsClock::passed_keeps))]
    pub fn pass(&mut self) -> Result<(), Refusal>
        ensures { PassesKept self.old self.new result }
    {
        if self.spent {
            return Err(Refusal::Memory);
        }
        steps::pass(&mut self.state)
    }

    /// Has an event happen, and says what came of it. A refused event changes nothing; after want of memory the world is
    /// spent.
    #[tactic(auto, using(crate::proofs::SafeSteps::steps_keep, crate::proofs::Ending::kept_came, crate::proofs::Ending::kept_spent))]
    pub fn apply(&mut self, alloc: Global, event: &Event) -> Result<Outcome, Refusal>
        requires fits { Fits self.old.state.setup.schema event.now }
        ensures step { StepsKept self.old event.now self.new result }
    {
        if self.spent {
            return Err(Refusal::Memory);
        }
        let came = apply(&mut self.state, alloc, event);
        if ran_out(&came) {
            self.spent = true;
        }
        came
    }

    /// Has a message come to a partition, and answers its offset: the outcome that `apply` gives of the event that says so.
    #[tactic(auto, using(crate::proofs::Producing::kept_told, crate::proofs::Ending::kept_spent))]
    pub fn produce(
        &mut self,
        alloc: Global,
        partition: Partition,
        message: &Bytes,
    ) -> Result<Offset, Refusal>
        ensures step { StepsKept self.old (Produce partition message.now) self.new (offset_told result) }
    {
        if self.spent {
            return Err(Refusal::Memory);
        }
        let came = steps::append(&mut self.state, alloc, partition, message);
        if ran_out(&came) {
            self.spent = true;
        }
        came
    }
}

/// Whether memory ran out.
fn ran_out<T>(came: &Result<T, Refusal>) -> bool
    ensures yes { IsTrue result → came.now ≡ Err Refusal.Memory }
    ensures no { IsFalse result → came.now ≡ Err Refusal.Memory → ⊥ }
{
    matches!(came, Err(Refusal::Memory))
}
