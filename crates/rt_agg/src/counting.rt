//! Counts of rows, by the groups' numbers.
ghost use Rattle.std.specs.Prelude.{◌≡◌, None as Nothing, slice_index_or};
ghost use Rattle.rt_agg.specs.Paging.{fed};
ghost use Rattle.rt_agg.specs.ResultHolder.{counted_at, join_at};
ghost use Rattle.rt_agg.specs.Totals.{counted, with_one};

use crate::PlacedRow;
use crate::total::ROW_LIMIT;
use rt_lists::Items;

/// The count of a group; none of one that wasn't started.
pub(crate) fn count_at(counts: &Items<u64>, group: usize) -> u64
    ensures { result ≡ slice_index_or counts.now group 0 }
{
    match counts.as_slice().get(group) {
        None => 0,
        Some(rows) => *rows,
    }
}

/// Counts the rows of a page, each in its group.
pub(crate) fn add_ones(counts: &mut Items<u64>, page: &[PlacedRow])
    ensures { counts.new ≡ fed (λ counts group scalar. counted_at counts group) (λ number. Nothing) page.now counts.old }
{
    for placed in page {
        add_one(counts, placed.group);
    }
}

// Counts one more row of a group.
fn add_one(counts: &mut Items<u64>, group: usize)
    ensures { counts.new ≡ counted_at counts.old group }
{
    if group < counts.len() {
        count_one(counts.at_mut(group));
    }
}

/// Counts the rows of a group of others too.
pub(crate) fn add_count(counts: &mut Items<u64>, group: usize, others: &Items<u64>, from: usize)
    ensures { counts.new ≡ join_at counted 0 group counts.old from others.now }
{
    if group < counts.len() && from < others.len() {
        count_all(counts.at_mut(group), others.as_slice()[from]);
    }
}

fn count_one(rows: &mut u64)
    ensures { rows.new ≡ with_one rows.old }
{
    if *rows < ROW_LIMIT {
        *rows += 1;
    }
}

fn count_all(rows: &mut u64, others: u64)
    ensures { rows.new ≡ counted rows.old others }
{
    if *rows <= ROW_LIMIT && others <= ROW_LIMIT - *rows {
        *rows += others;
    }
}
