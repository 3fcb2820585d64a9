//! Sets of rows by the ids of a column.
ghost use Rattle.std.specs.Prelude.{◌≡◌, ◌^◌, ◌<◌, All, length, map, replicate, true, slice_set, IfOk};
ghost use Rattle.rt_seek.specs.RowSets.{noted, truth_at, with_rows};

use rt_postings::DocSet;
use std::alloc::{AllocError, Global};

/// The rows whose ids pass. Fails only where memory is refused.
pub(crate) fn rows_with(alloc: Global, truths: &[bool], ids: &[u32]) -> Result<DocSet, AllocError>
    requires few { length ids.now < 2 ^ 32 }
    requires known { All (λ id. id < length truths.now) ids.now }
    ensures { IfOk result (λ set. set ≡ map (truth_at truths.now) ids.now) }
{
    let mut set = DocSet::empty(alloc, ids.len() as u32)?;
    for (row, id) in ids.iter().enumerate() {
        note_row(&mut set, row as u32, truths[*id as usize]);
    }
    Ok(set)
}

// Adds a row where it passes.
fn note_row(set: &mut DocSet, row: u32, passes: bool)
    requires { row < length set.old }
    ensures { set.new ≡ noted set.old row passes }
{
    if passes {
        set.add(row);
    }
}

/// Adds rows to a set; those past its row count are left out.
pub(crate) fn add_rows(set: &mut DocSet, rows: &[u32])
    ensures { set.new ≡ with_rows set.old rows.now }
{
    for row in rows {
        add_row(set, *row);
    }
}

// Adds a row to a set, unless it is past the row count.
#[tactic(auto, using(std::proofs::lemmas::List::set_past))]
fn add_row(set: &mut DocSet, row: u32)
    ensures { set.new ≡ slice_set set.old row true }
{
    if row < set.rows() {
        set.add(row);
    }
}

/// All of so many rows. Fails only where memory is refused.
#[tactic(auto, using(crate::proofs::Rows::all_of))]
pub fn all_rows(alloc: Global, rows: u32) -> Result<DocSet, AllocError>
    ensures { IfOk result (λ set. set ≡ replicate rows true) }
{
    let mut set = DocSet::empty(alloc, rows)?;
    set.not();
    Ok(set)
}
