ghost use Rattle.std.specs.Prelude.{◌≡◌};
ghost use Rattle.rt_base.specs.FaultPlan.{after_call, fails_now, planned};

use std::marker::Model;

/// Which calls of an object in memory fail, by their numbers from 0.
#[derive(Drop)]
pub(crate) struct FaultPlan {
    fails: Vec<u64>,
    next: Option<u64>,
}

impl Model for FaultPlan {
    ghost use Rattle.rt_base.specs.FaultPlan.{Plan};

    ghost Value = { Plan };

    ghost view = { λ p. record { fails = p.fails.items; next = p.next } };
}

impl FaultPlan {
    /// A plan of which no call was made yet.
    pub(crate) fn of(fails: Vec<u64>) -> FaultPlan
        ensures { result ≡ planned fails.items }
    {
        FaultPlan {
            fails,
            next: Some(0),
        }
    }

    /// Counts a call, and answers whether it fails.
    pub(crate) fn meets_fault(&mut self) -> bool
        ensures answer { result ≡ fails_now self.old }
        ensures after { self.new ≡ after_call self.old }
    {
        let Some(number) = self.next else {
            return false;
        };
        self.next = if number < u64::MAX {
            Some(number + 1)
        } else {
            None
        };
        self.fails.contains(&number)
    }
}
