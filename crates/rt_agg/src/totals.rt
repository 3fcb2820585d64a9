ghost use Rattle.std.specs.Prelude.{[], ◌≡◌, ◌≤◌, length, slice_index_or, IfOk, OnOk, OnErr};
ghost use Rattle.rt_agg.specs.Picking.{kept};
ghost use Rattle.rt_agg.specs.ResultHolder.{join_at, no_rows, put_at};
ghost use Rattle.rt_agg.specs.Totals.{joined};

use crate::keeping::keep_copies;
use crate::placing::put;
use crate::totalling::{add_sum, add_to_sum, sum_at};
use crate::{Scalar, TakeScalar, Total};
use rt_lists::Items;
use std::alloc::{AllocError, Global};
use std::marker::Model;

/// The sums of groups, by their numbers.
#[derive(Drop)]
pub(crate) struct Totals {
    totals: Items<Total>,
}

impl Model for Totals {
    ghost use Rattle.std.specs.Prelude.{List};
    ghost use Rattle.rt_agg.specs.Summed.{Summed};

    ghost Value = { List Summed };

    ghost view = { λ a. a.totals };
}

impl Totals {
    /// The sum of no group.
    pub(crate) fn new(alloc: Global) -> Totals
        ensures { result ≡ [] }
    {
        Totals {
            totals: Items::new(alloc),
        }
    }

    /// Starts a group that has no row: that of the next number, or one that was started before.
    pub(crate) fn start(&mut self, group: usize) -> Result<(), AllocError>
        requires { group ≤ length self.old }
        ensures ok { OnOk result (self.new ≡ put_at group no_rows self.old) }
        ensures err { OnErr result (self.new ≡ self.old) }
    {
        put(&mut self.totals, group, Total::none())
    }

    /// The sum of a group; zero of one that wasn't started.
    pub(crate) fn sum(&self, group: usize) -> i128
        ensures { result ≡ (slice_index_or self.now group no_rows).sum }
    {
        sum_at(&self.totals, group)
    }

    /// Adds the sum of a group of others too.
    pub(crate) fn join(&mut self, group: usize, others: &Totals, from: usize)
        ensures { self.new ≡ join_at joined no_rows group self.old from others.now }
    {
        add_sum(&mut self.totals, group, &others.totals, from);
    }

    /// The sums of the groups that are marked, one after the other.
    pub(crate) fn pick(&self, alloc: Global, marks: &[bool]) -> Result<Totals, AllocError>
        ensures { IfOk result (λ picked. picked ≡ kept marks.now self.now) }
    {
        Ok(Totals {
            totals: keep_copies(alloc, marks, self.totals.as_slice())?,
        })
    }
}

impl TakeScalar for Totals {
    ghost use Rattle.rt_agg.specs.ResultHolder.{summed_at};

    ghost takes = { summed_at };

    fn take(&mut self, group: usize, scalar: Option<Scalar>) {
        add_to_sum(&mut self.totals, group, scalar);
    }
}
