//! The least and the greatest scalars, by the groups' numbers.
ghost use Rattle.std.specs.Prelude.{◌≡◌, None as Nothing, slice_index_or};
ghost use Rattle.rt_agg.specs.Accumulators.{greatest_with, least_with};
ghost use Rattle.rt_agg.specs.ResultHolder.{greater_at, join_at, lesser_at};

use crate::Scalar;
use crate::compare::compare_scalars;
use rt_lists::Items;

/// The scalar of a group, where it has one.
pub(crate) fn scalar_at(scalars: &Items<Option<Scalar>>, group: usize) -> Option<Scalar>
    ensures { result ≡ slice_index_or scalars.now group Nothing }
{
    match scalars.as_slice().get(group) {
        None => None,
        Some(scalar) => *scalar,
    }
}

/// Keeps the lesser of a group's scalar and another.
pub(crate) fn take_lesser(scalars: &mut Items<Option<Scalar>>, group: usize, other: Option<Scalar>)
    ensures { scalars.new ≡ lesser_at scalars.old group other }
{
    if group < scalars.len() {
        keep_lesser(scalars.at_mut(group), other);
    }
}

/// Keeps the greater of a group's scalar and another.
pub(crate) fn take_greater(scalars: &mut Items<Option<Scalar>>, group: usize, other: Option<Scalar>)
    ensures { scalars.new ≡ greater_at scalars.old group other }
{
    if group < scalars.len() {
        keep_greater(scalars.at_mut(group), other);
    }
}

/// Keeps the lesser of a group's scalar and that of a group of others.
pub(crate) fn join_lesser(
    scalars: &mut Items<Option<Scalar>>,
    group: usize,
    others: &Items<Option<Scalar>>,
    from: usize,
)
    ensures { scalars.new ≡ join_at least_with Nothing group scalars.old from others.now }
{
    if group < scalars.len() && from < others.len() {
        keep_lesser(scalars.at_mut(group), others.as_slice()[from]);
    }
}

/// Keeps the greater of a group's scalar and that of a group of others.
pub(crate) fn join_greater(
    scalars: &mut Items<Option<Scalar>>,
    group: usize,
    others: &Items<Option<Scalar>>,
    from: usize,
)
    ensures { scalars.new ≡ join_at greatest_with Nothing group scalars.old from others.now }
{
    if group < scalars.len() && from < others.len() {
        keep_greater(scalars.at_mut(group), others.as_slice()[from]);
    }
}

fn keep_lesser(scalar: &mut Option<Scalar>, other: Option<Scalar>)
    ensures { scalar.new ≡ least_with scalar.old other }
{
    *scalar = lesser(*scalar, other);
}

fn keep_greater(scalar: &mut Option<Scalar>, other: Option<Scalar>)
    ensures { scalar.new ≡ greatest_with scalar.old other }
{
    *scalar = greater(*scalar, other);
}

fn lesser(one: Option<Scalar>, other: Option<Scalar>) -> Option<Scalar>
    ensures { result ≡ least_with one other }
{
    match (one, other) {
        (None, other) => other,
        (Some(one), None) => Some(one),
        (Some(one), Some(other)) => {
            if compare_scalars(one, other).is_gt() {
                Some(other)
            } else {
                Some(one)
            }
        }
    }
}

fn greater(one: Option<Scalar>, other: Option<Scalar>) -> Option<Scalar>
    ensures { result ≡ greatest_with one other }
{
    match (one, other) {
        (None, other) => other,
        (Some(one), None) => Some(one),
        (Some(one), Some(other)) => {
            if compare_scalars(other, one).is_gt() {
                Some(other)
            } else {
                Some(one)
            }
        }
    }
}
