ghost use Rattle.std.specs.Prelude.{[], ◌≡◌, ◌≤◌, None as Nothing, length, slice_index_or, IfOk, OnOk, OnErr};
ghost use Rattle.rt_agg.specs.Accumulators.{least_with};
ghost use Rattle.rt_agg.specs.Picking.{kept};
ghost use Rattle.rt_agg.specs.ResultHolder.{join_at, put_at};

use crate::keeping::keep;
use crate::placing::put;
use crate::ranging::{join_lesser, scalar_at, take_lesser};
use crate::{Scalar, TakeScalar};
use rt_lists::Items;
use std::alloc::{AllocError, Global};
use std::marker::Model;

/// The least scalars of groups, by their numbers.
#[derive(Drop)]
pub(crate) struct LeastScalars {
    scalars: Items<Option<Scalar>>,
}

impl Model for LeastScalars {
    ghost use Rattle.std.specs.Prelude.{List, Option};
    ghost use Rattle.rt_agg.specs.declared.scalar.Scalar.{Scalar as AnyScalar};

    ghost Value = { List (Option AnyScalar) };

    ghost view = { λ a. a.scalars };
}

impl LeastScalars {
    /// The scalar of no group.
    pub(crate) fn new(alloc: Global) -> LeastScalars
        ensures { result ≡ [] }
    {
        LeastScalars {
            scalars: Items::new(alloc),
        }
    }

    /// Starts a group that has no row: that of the next number, or one that was started before.
    pub(crate) fn start(&mut self, group: usize) -> Result<(), AllocError>
        requires { group ≤ length self.old }
        ensures ok { OnOk result (self.new ≡ put_at group Nothing self.old) }
        ensures err { OnErr result (self.new ≡ self.old) }
    {
        put(&mut self.scalars, group, None)
    }

    /// The scalar of a group, where it has one.
    pub(crate) fn scalar(&self, group: usize) -> Option<Scalar>
        ensures { result ≡ slice_index_or self.now group Nothing }
    {
        scalar_at(&self.scalars, group)
    }

    /// Keeps the lesser of a group's scalar and that of a group of others.
    pub(crate) fn join(&mut self, group: usize, others: &LeastScalars, from: usize)
        ensures { self.new ≡ join_at least_with Nothing group self.old from others.now }
    {
        join_lesser(&mut self.scalars, group, &others.scalars, from);
    }

    /// The scalars of the groups that are marked, one after the other.
    pub(crate) fn pick(&self, alloc: Global, marks: &[bool]) -> Result<LeastScalars, AllocError>
        ensures { IfOk result (λ picked. picked ≡ kept marks.now self.now) }
    {
        Ok(LeastScalars {
            scalars: keep(alloc, marks, self.scalars.as_slice())?,
        })
    }
}

impl TakeScalar for LeastScalars {
    ghost use Rattle.rt_agg.specs.ResultHolder.{lesser_at};

    ghost takes = { lesser_at };

    fn take(&mut self, group: usize, scalar: Option<Scalar>) {
        take_lesser(&mut self.scalars, group, scalar);
    }
}
