ghost use Rattle.std.specs.Prelude.{◌≡◌, ◌++◌, ◌∷◌, [], OnOk, OnErr};
ghost use Rattle.rt_base.specs.Faults.{fault_of, met_fault};

use crate::Fault;
use std::alloc::{AllocError, Global};
use std::marker::Model;

/// The faults that are planned for the calls of an object in memory. Each call meets the first that no
/// earlier call met, and none where there is no such fault.
#[derive(Drop)]
pub struct PlannedFaults {
    /// Every fault that was ever planned: true where the call is carried out first.
    kept: Vec<bool>,
    /// How many of them were met.
    met: usize,
}

impl Model for PlannedFaults {
    ghost use Rattle.std.specs.Prelude.{drop, length, ◌≤◌};
    ghost use Rattle.rt_base.specs.Faults.{Planned};

    ghost Value = { Planned };

    ghost view = { λ a. record { plan = drop a.met a.kept.items; met = a.met } };

    ghost invariant = { λ a. a.met ≤ length a.kept.items };
}

impl PlannedFaults {
    /// No fault. It takes no memory yet.
    pub fn make(alloc: Global) -> PlannedFaults
        ensures { result ≡ record { plan = []; met = 0 } }
    {
        PlannedFaults {
            kept: Vec::new(alloc),
            met: 0,
        }
    }

    /// Plans a fault for the first call that has none planned before it. A kept one lets the call be
    /// carried out first, a lost one doesn't.
    pub fn plan(&mut self, kept: bool) -> Result<(), AllocError>
        ensures ok { OnOk result (self.new ≡ record self.old { plan = self.old.plan ++ kept ∷ [] }) }
        ensures err { OnErr result (self.new ≡ self.old) }
    {
        self.kept.push(kept)?;
        Ok(())
    }

    /// The fault that the next call meets.
    #[tactic(auto, using(crate::proofs::Planned::next_by))]
    pub fn next(&self) -> Fault
        ensures { result ≡ fault_of self.now.plan }
    {
        match self.kept.get(self.met) {
            None => Fault::Nothing,
            Some(true) => Fault::Kept,
            Some(false) => Fault::Lost,
        }
    }

    /// Counts the fault that a call meets, and answers which it is.
    #[tactic(auto, using(crate::proofs::Planned::met_more, crate::proofs::Planned::met_none))]
    pub fn meet(&mut self) -> Fault
        ensures fault { result ≡ fault_of self.old.plan }
        ensures after { self.new ≡ met_fault self.old }
    {
        let fault = self.next();
        if self.met < self.kept.len() {
            self.met += 1;
        }
        fault
    }
}
