ghost use Rattle.std.specs.Prelude.{◌≤◌, length, take, IfOk};
ghost use Rattle.rt_mutable.specs.Column.{kind_in, values_in};
ghost use Rattle.rt_build.specs.Sealing.{StandFor};

use crate::sorted::sort_values;
use rt_lists::Items;
use rt_mutable::ColumnValues;
use rt_segment::Dictionary;
use std::alloc::{AllocError, Global};

/// The distinct values of some rows of a kind, ascending, and the place of each row's value among them.
#[derive(Drop)]
pub(crate) struct SortedValues {
    pub(crate) dictionary: Dictionary,
    pub(crate) ids: Items<u32>,
}

/// The values of the first rows of a column, sorted once; the rows stay in their order.
pub(crate) fn sort_column(
    alloc: Global,
    values: &ColumnValues,
    rows: u32,
) -> Result<SortedValues, AllocError>
    requires { rows ≤ length (values_in values.now) }
    ensures { IfOk result (λ sorted. StandFor (kind_in values.now) (take rows (values_in values.now)) sorted.dictionary sorted.ids) }
{
    match values {
        ColumnValues::Int(arrivals) => {
            let sorted = sort_values(alloc, arrivals, rows)?;
            Ok(SortedValues {
                dictionary: Dictionary::Int(sorted.dictionary),
                ids: sorted.ids,
            })
        }
        ColumnValues::Long(arrivals) => {
            let sorted = sort_values(alloc, arrivals, rows)?;
            Ok(SortedValues {
                dictionary: Dictionary::Long(sorted.dictionary),
                ids: sorted.ids,
            })
        }
        ColumnValues::Text(arrivals) => {
            let sorted = sort_values(alloc, arrivals, rows)?;
            Ok(SortedValues {
                dictionary: Dictionary::Text(sorted.dictionary),
                ids: sorted.ids,
            })
        }
        ColumnValues::Bool(arrivals) => {
            let sorted = sort_values(alloc, arrivals, rows)?;
            Ok(SortedValues {
                dictionary: Dictionary::Bool(sorted.dictionary),
                ids: sorted.ids,
            })
        }
        ColumnValues::Time(arrivals) => {
            let sorted = sort_values(alloc, arrivals, rows)?;
            Ok(SortedValues {
                dictionary: Dictionary::Time(sorted.dictionary),
                ids: sorted.ids,
            })
        }
    }
}
