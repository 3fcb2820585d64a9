//! Steps of all holders of a list.
ghost use Rattle.std.specs.Prelude.{◌≡◌, map, OnOk};
ghost use Rattle.std.specs.List.{AllByRecursion};
ghost use Rattle.rt_agg.specs.ResultHolder.{HasStarted, started_in, with_page_in};
ghost use Rattle.rt_agg.specs.GroupTable.{StartsFront, all_merged_in};

use crate::result_holder::ResultHolder;
use crate::{PlacedRow, ReadTable};
use rt_lists::Items;
use std::alloc::AllocError;

/// Starts a group in each holder. Where memory runs out, the first have started it.
pub(crate) fn start_all(holders: &mut Items<ResultHolder>, group: usize) -> Result<(), AllocError>
    requires { AllByRecursion (HasStarted group) holders.old }
    ensures started { OnOk result (holders.new ≡ map (started_in group) holders.old) }
    ensures some { StartsFront group holders.old holders.new }
{
    for i in 0..holders.len() {
        holders.at_mut(i).start(group)?;
    }
    Ok(())
}

/// Takes the rows of a page into each holder, each row into its group.
pub(crate) fn add_page_to_all<R: ReadTable>(
    holders: &mut Items<ResultHolder>,
    page: &[PlacedRow],
    table: &R,
)
    ensures { holders.new ≡ map (with_page_in (R.row_of table.now) page.now) holders.old }
{
    add_page_to_each(holders.as_mut_slice(), page, table);
}

fn add_page_to_each<R: ReadTable>(holders: &mut [ResultHolder], page: &[PlacedRow], table: &R)
    ensures { holders.new ≡ map (with_page_in (R.row_of table.now) page.now) holders.old }
{
    for holder in holders.iter_mut() {
        holder.add_page(page, table);
    }
}

/// Takes the rows of a group of other holders into a group of each.
pub(crate) fn merge_all(
    holders: &mut Items<ResultHolder>,
    group: usize,
    others: &Items<ResultHolder>,
    from: usize,
)
    ensures { holders.new ≡ all_merged_in group from holders.old others.now }
{
    merge_each(holders, group, others.as_slice(), from);
}

fn merge_each(holders: &mut Items<ResultHolder>, group: usize, others: &[ResultHolder], from: usize)
    ensures { holders.new ≡ all_merged_in group from holders.old others.now }
{
    for i in 0..others.len() {
        if i < holders.len() {
            holders.at_mut(i).merge(group, &others[i], from);
        }
    }
}
