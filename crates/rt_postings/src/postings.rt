//! The rows of each id.
ghost use Rattle.std.specs.Prelude.{◌≡◌, ℕ, ◌^◌, ◌<◌, List, length, All, IfOk, Some, slice_get};
ghost use Rattle.rt_postings.specs.Postings.{postings_of};

use crate::posting_runs::{run_in, sort_rows};
use std::alloc::{AllocError, Global};
use std::marker::Model;

/// For each id below a cardinality the rows that have it, ascending.
///
/// The rows of all ids lie in one list, those of an id in a run that ends at its entry of `ends`.
#[derive(Drop)]
pub struct Postings {
    ends: Vec<u32>,
    rows: Vec<u32>,
}

impl Model for Postings {
    ghost use Rattle.std.specs.Prelude.{ℕ, List};
    ghost use Rattle.rt_postings.specs.Runs.{runs_of, AreRuns};

    ghost Value = { List (List ℕ) };

    ghost view = { λ a. runs_of a.ends.items a.rows.items };

    ghost invariant = { λ a. AreRuns a.ends.items a.rows.items };
}

impl Postings {
    /// The rows of each id: row r has the id that stands at r.
    pub fn build(alloc: Global, ids: &[u32], cardinality: u32) -> Result<Self, AllocError>
        requires few { length ids.now < 2 ^ 32 }
        requires known { All (λ id. id < cardinality) ids.now }
        ensures { IfOk result (λ postings. postings ≡ postings_of ids.now cardinality) }
    {
        let mut ends = vec![in alloc; 0u32; cardinality as usize]?;
        let mut rows = vec![in alloc; 0u32; ids.len()]?;
        sort_rows(ids, &mut ends, &mut rows);
        Ok(Postings { ends, rows })
    }

    /// The rows that have an id, ascending.
    pub fn docs(&self, id: u32) -> &[u32]
        requires { id < length self.now }
        ensures { slice_get self.now id ≡ Some result.now }
    {
        run_in(&self.ends, &self.rows, id)
    }
}
