ghost use Rattle.std.specs.Prelude.{◌≡◌, ◌↔◌, IfOk, IsTrue, OnOk, OnErr};
ghost use Rattle.rt_model.specs.Aggregate.{cell_cmp};
ghost use Rattle.rt_agg.specs.Accumulators.{scalar_cell};
ghost use Rattle.rt_agg.specs.Picking.{picked_in};
ghost use Rattle.rt_agg.specs.ResultHolder.{HasStarted, bare_cell_of, cell_held, item_of, merged_in, started_in, with_page_in};

use crate::compare::compare_cells;
use crate::counting::{add_count, add_ones, count_at};
use crate::greatest_scalars::GreatestScalars;
use crate::group_ref::GroupRef;
use crate::keeping::keep;
use crate::key_column::{compare_by_column, copy_of_key};
use crate::least_scalars::LeastScalars;
use crate::placing::put;
use crate::totals::Totals;
use crate::{PlacedRow, ReadTable, Scalar};
use rt_lists::{Copied, Items};
use rt_model::{Aggregate, Cell, ColumnAt, Item};
use std::alloc::{AllocError, Global};
use std::cmp::Ordering;

/// What is known of the rows of all groups for one item of a query, by the groups' numbers.
#[derive(Drop)]
pub(crate) enum ResultHolder {
    /// The item is a column of GROUP BY, whose values the groups' keys have.
    Key(ColumnAt),
    /// How many rows there are.
    Counts(Items<u64>),
    Sums {
        column: ColumnAt,
        totals: Totals,
    },
    /// The least value, once there is a row.
    Least {
        column: ColumnAt,
        scalars: LeastScalars,
    },
    /// The greatest value, once there is a row.
    Greatest {
        column: ColumnAt,
        scalars: GreatestScalars,
    },
}

impl ResultHolder {
    /// What is known of no group.
    pub(crate) fn make(alloc: Global, item: &Item) -> Result<ResultHolder, AllocError>
        ensures { IfOk result (λ holder. item_of holder ≡ item.now) }
    {
        match item {
            Item::Column(column) => Ok(ResultHolder::Key(column.copied(alloc)?)),
            Item::Aggregate(Aggregate::Count) => Ok(ResultHolder::Counts(Items::new(alloc))),
            Item::Aggregate(Aggregate::Sum(column)) => Ok(ResultHolder::Sums {
                column: column.copied(alloc)?,
                totals: Totals::new(alloc),
            }),
            Item::Aggregate(Aggregate::Min(column)) => Ok(ResultHolder::Least {
                column: column.copied(alloc)?,
                scalars: LeastScalars::new(alloc),
            }),
            Item::Aggregate(Aggregate::Max(column)) => Ok(ResultHolder::Greatest {
                column: column.copied(alloc)?,
                scalars: GreatestScalars::new(alloc),
            }),
        }
    }

    /// Whether it is for an item.
    pub(crate) fn is_for(&self, item: &Item) -> bool
        ensures { IsTrue result ↔ (item_of self.now ≡ item.now) }
    {
        match (self, item) {
            (ResultHolder::Key(column), Item::Column(other)) => column == other,
            (ResultHolder::Counts(_), Item::Aggregate(Aggregate::Count)) => true,
            (ResultHolder::Sums { column, .. }, Item::Aggregate(Aggregate::Sum(other))) => {
                column == other
            }
            (ResultHolder::Least { column, .. }, Item::Aggregate(Aggregate::Min(other))) => {
                column == other
            }
            (ResultHolder::Greatest { column, .. }, Item::Aggregate(Aggregate::Max(other))) => {
                column == other
            }
            _ => false,
        }
    }

    /// What is known of the groups that are marked, one after the other.
    pub(crate) fn pick(&self, alloc: Global, marks: &[bool]) -> Result<ResultHolder, AllocError>
        ensures { IfOk result (λ holder. holder ≡ picked_in marks.now self.now) }
    {
        match self {
            ResultHolder::Key(column) => Ok(ResultHolder::Key(column.copied(alloc)?)),
            ResultHolder::Counts(counts) => {
                let counts = keep(alloc, marks, counts.as_slice())?;
                Ok(ResultHolder::Counts(counts))
            }
            ResultHolder::Sums { column, totals } => {
                let column = column.copied(alloc)?;
                let totals = totals.pick(alloc, marks)?;
                Ok(ResultHolder::Sums { column, totals })
            }
            ResultHolder::Least { column, scalars } => {
                let column = column.copied(alloc)?;
                let scalars = scalars.pick(alloc, marks)?;
                Ok(ResultHolder::Least { column, scalars })
            }
            ResultHolder::Greatest { column, scalars } => {
                let column = column.copied(alloc)?;
                let scalars = scalars.pick(alloc, marks)?;
                Ok(ResultHolder::Greatest { column, scalars })
            }
        }
    }

    /// Starts a group that has no row: that of the next number, or one that was started before.
    pub(crate) fn start(&mut self, group: usize) -> Result<(), AllocError>
        requires { HasStarted group self.old }
        ensures ok { OnOk result (self.new ≡ started_in group self.old) }
        ensures err { OnErr result (self.new ≡ self.old) }
    {
        match self {
            ResultHolder::Key(_) => Ok(()),
            ResultHolder::Counts(counts) => put(counts, group, 0),
            ResultHolder::Sums { totals, .. } => totals.start(group),
            ResultHolder::Least { scalars, .. } => scalars.start(group),
            ResultHolder::Greatest { scalars, .. } => scalars.start(group),
        }
    }

    /// Takes the rows of a page, each into its group.
    pub(crate) fn add_page<R: ReadTable>(&mut self, page: &[PlacedRow], table: &R)
        ensures { self.new ≡ with_page_in (R.row_of table.now) page.now self.old }
    {
        match self {
            ResultHolder::Key(_) => (),
            ResultHolder::Counts(counts) => add_ones(counts, page),
            ResultHolder::Sums { column, totals } => table.feed(column.place, page, totals),
            ResultHolder::Least { column, scalars } => table.feed(column.place, page, scalars),
            ResultHolder::Greatest { column, scalars } => table.feed(column.place, page, scalars),
        }
    }

    /// Takes the rows of a group of another holder for the same item into a group that was started.
    pub(crate) fn merge(&mut self, group: usize, other: &ResultHolder, from: usize)
        ensures { self.new ≡ merged_in group from self.old other.now }
    {
        match (self, other) {
            (ResultHolder::Counts(counts), ResultHolder::Counts(others)) => {
                add_count(counts, group, others, from);
            }
            (ResultHolder::Sums { totals, .. }, ResultHolder::Sums { totals: others, .. }) => {
                totals.join(group, others, from);
            }
            (
                ResultHolder::Least { scalars, .. },
                ResultHolder::Least {
                    scalars: others,
                    ..
                },
            ) => {
                scalars.join(group, others, from);
            }
            (
                ResultHolder::Greatest { scalars, .. },
                ResultHolder::Greatest {
                    scalars: others,
                    ..
                },
            ) => {
                scalars.join(group, others, from);
            }
            _ => (),
        }
    }

    /// The cell of a group.
    pub(crate) fn cell(
        &self,
        alloc: Global,
        columns: &[ColumnAt],
        group: &GroupRef<'_>,
    ) -> Result<Cell, AllocError>
        ensures { IfOk result (λ cell. cell ≡ cell_held columns.now group.now.key.now group.now.number self.now) }
    {
        match self {
            ResultHolder::Key(column) => {
                Ok(Cell::Value(copy_of_key(alloc, columns, group.key, column)?))
            }
            held => Ok(held.bare_cell(group.number)),
        }
    }

    // The cell of a group, where that isn't a value of its key.
    fn bare_cell(&self, group: usize) -> Cell
        ensures { result ≡ bare_cell_of group self.now }
    {
        match self {
            ResultHolder::Key(_) => Cell::Null,
            ResultHolder::Counts(counts) => Cell::Whole(i128::from(count_at(counts, group))),
            ResultHolder::Sums { totals, .. } => Cell::Whole(totals.sum(group)),
            ResultHolder::Least { scalars, .. } => cell_of_scalar(scalars.scalar(group)),
            ResultHolder::Greatest { scalars, .. } => cell_of_scalar(scalars.scalar(group)),
        }
    }

    /// How the cells of two groups stand.
    pub(crate) fn compare(
        &self,
        columns: &[ColumnAt],
        one: &GroupRef<'_>,
        other: &GroupRef<'_>,
    ) -> Ordering
        ensures { result ≡ cell_cmp (cell_held columns.now one.now.key.now one.now.number self.now) (cell_held columns.now other.now.key.now other.now.number self.now) }
    {
        match self {
            ResultHolder::Key(column) => compare_by_column(columns, column, one.key, other.key),
            held => compare_cells(&held.bare_cell(one.number), &held.bare_cell(other.number)),
        }
    }
}

// The cell of a scalar, where there is one.
fn cell_of_scalar(scalar: Option<Scalar>) -> Cell
    ensures { result ≡ scalar_cell scalar }
{
    match scalar {
        None => Cell::Null,
        Some(scalar) => Cell::Value(scalar.value()),
    }
}
