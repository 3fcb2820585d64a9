ghost use Rattle.std.specs.Prelude.{◌≡◌, ◌↔◌, false, true};
ghost use Rattle.rt_model.specs.declared.replica_state.ReplicaState.TheVariants.{InitialConsuming};
ghost use Rattle.rt_pause.specs.Paused.{allows};

use rt_model::ReplicaState;
use std::marker::Model;

/// Whether a run is paused; contracts see that alone.
#[derive(Drop)]
pub struct Pause {
    paused: bool,
}

impl Model for Pause {
    ghost use Rattle.std.specs.Prelude.{Bool};

    ghost Value = { Bool };

    ghost view = { λ a. a.paused };
}

impl Pause {
    /// A run begins without a pause.
    pub fn make() -> Pause
        ensures { result ≡ false }
    {
        Pause { paused: false }
    }

    /// From now on no replica begins to consume.
    pub fn pause(&mut self)
        ensures { self.new ≡ true }
    {
        self.paused = true;
    }

    /// From now on replicas may begin to consume.
    pub fn resume(&mut self)
        ensures { self.new ≡ false }
    {
        self.paused = false;
    }

    /// Whether the run is paused.
    pub fn paused(&self) -> bool
        ensures { result ≡ self.now }
    {
        self.paused
    }

    /// Whether a replica in this state may take messages.
    pub fn allows(&self, stage: ReplicaState) -> bool
        ensures answer { result ≡ allows self.now stage }
        ensures refused { (result ≡ false) ↔ ((self.now ≡ true) × (stage ≡ InitialConsuming)) }
    {
        !(self.paused && stage == ReplicaState::InitialConsuming)
    }
}
