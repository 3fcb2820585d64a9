ghost use Rattle.std.specs.Prelude.{◌≡◌, pos};
ghost use Rattle.rt_agg.specs.Totals.{with_number, joined};

use rt_lists::Copied;
use std::alloc::{AllocError, Global};
use std::marker::Model;

/// The greatest number of rows that are counted: beyond it nothing is added.
pub const ROW_LIMIT: u64 = 9_223_372_036_854_775_807;

/// The exact sum of 64-bit numbers, and how many there were. Each row adds less than 64 bits, so 128 bits hold the sum.
#[derive(Drop)]
pub struct Total {
    rows: u64,
    sum: i128,
}

impl Model for Total {
    ghost use Rattle.std.specs.Prelude.{◌≤◌};
    ghost use Rattle.rt_agg.specs.Summed.{Summed, IsWithin};

    ghost Value = { Summed };

    ghost view = { λ t. record { rows = t.rows; sum = t.sum } };

    ghost invariant = { λ t. IsWithin t.rows t.sum };
}

impl Total {
    /// The sum of no number.
    pub fn none() -> Total
        ensures { result ≡ record { rows = 0; sum = pos 0 } }
    {
        Total { rows: 0, sum: 0 }
    }

    /// Adds a number.
    pub fn add(&mut self, number: i64)
        ensures { self.new ≡ with_number number self.old }
    {
        if self.rows < ROW_LIMIT {
            self.rows += 1;
            self.sum += i128::from(number);
        }
    }

    /// Adds all numbers of another sum.
    pub fn join(&mut self, other: &Total)
        ensures { self.new ≡ joined self.old other.now }
    {
        if other.rows <= ROW_LIMIT - self.rows {
            self.rows += other.rows;
            self.sum += other.sum;
        }
    }

    /// The sum.
    pub fn sum(&self) -> i128
        ensures { result ≡ self.now.sum }
    {
        self.sum
    }
}

impl Copied for Total {
    fn copied(&self, _alloc: Global) -> Result<Self, AllocError> {
        Ok(Total {
            rows: self.rows,
            sum: self.sum,
        })
    }
}
