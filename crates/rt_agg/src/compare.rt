ghost use Rattle.std.specs.Prelude.{◌≡◌};
ghost use Rattle.rt_model.specs.Aggregate.{cell_cmp};
ghost use Rattle.rt_model.specs.Values.{value_cmp};
ghost use Rattle.rt_agg.specs.Reading.{value_from};

use crate::{Scalar, ValueRef};
use rt_model::Cell;
use std::cmp::Ordering;

/// How two scalars stand as values.
pub(crate) fn compare_scalars(one: Scalar, other: Scalar) -> Ordering
    ensures { result ≡ value_cmp (value_from one) (value_from other) }
{
    match (one, other) {
        (Scalar::Int(one), Scalar::Int(other)) => one.cmp(&other),
        (Scalar::Int(_), _) => Ordering::Less,
        (Scalar::Long(_), Scalar::Int(_)) => Ordering::Greater,
        (Scalar::Long(one), Scalar::Long(other)) => one.cmp(&other),
        (Scalar::Long(_), Scalar::Time(_)) => Ordering::Less,
        (Scalar::Time(one), Scalar::Time(other)) => one.cmp(&other),
        (Scalar::Time(_), _) => Ordering::Greater,
    }
}

/// How two cells stand; nothing comes first.
pub(crate) fn compare_cells(one: &Cell, other: &Cell) -> Ordering
    ensures { result ≡ cell_cmp one.now other.now }
{
    match (one, other) {
        (Cell::Null, Cell::Null) => Ordering::Equal,
        (Cell::Null, _) => Ordering::Less,
        (Cell::Whole(_), Cell::Null) => Ordering::Greater,
        (Cell::Whole(one), Cell::Whole(other)) => one.cmp(other),
        (Cell::Whole(_), Cell::Value(_)) => Ordering::Less,
        (Cell::Value(one), Cell::Value(other)) => ValueRef::of(one).compare(ValueRef::of(other)),
        (Cell::Value(_), _) => Ordering::Greater,
    }
}
