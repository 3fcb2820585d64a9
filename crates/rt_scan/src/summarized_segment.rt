ghost use Rattle.std.specs.Prelude.{◌≡◌, IfOk};
ghost use Rattle.rt_model.specs.Aggregate.{taken};
ghost use Rattle.rt_segment.specs.Segment.{rows_of};
ghost use Rattle.rt_agg.specs.Grouped.{Holds};
ghost use Rattle.rt_scan.specs.Scanned.{FitsSealed};

use crate::scanning::scan;
use crate::summaries::summaries_of;
use crate::telling::told;
use rt_agg::{Groups, PickRefused};
use rt_lists::Items;
use rt_model::Query;
use rt_segment::Sealed;
use std::alloc::{AllocError, Global};
use std::marker::Model;

/// A sealed segment with its summaries: for each indexed column that has few values, the groups of all rows by this column.
#[derive(Drop)]
pub struct SummarizedSegment {
    file: Sealed,
    summaries: Items<Groups>,
}

impl Model for SummarizedSegment {
    ghost use Rattle.std.specs.List.{AllByRecursion};
    ghost use Rattle.rt_segment.specs.Segment.{SealedSegment};
    ghost use Rattle.rt_scan.specs.Summaries.{IsSummary};

    ghost Value = { SealedSegment };

    ghost view = { λ a. a.file };

    ghost invariant = { λ a. AllByRecursion (IsSummary a.file) a.summaries };
}

impl SummarizedSegment {
    /// A sealed segment, which is summarized. Fails only where memory is refused.
    pub fn make(alloc: Global, file: Sealed) -> Result<SummarizedSegment, AllocError>
        ensures { IfOk result (λ segment. segment ≡ file) }
    {
        let summaries = summaries_of(alloc, &file)?;
        Ok(SummarizedSegment { file, summaries })
    }

    /// The sealed segment.
    pub fn file(&self) -> &Sealed
        ensures { result.now ≡ self.now }
    {
        &self.file
    }

    /// The groups of the segment's rows that a query takes, as [`scan`] gives them: from a summary, where one tells them.
    pub fn scan(&self, alloc: Global, query: &Query) -> Result<Groups, AllocError>
        requires { FitsSealed query.now self.now }
        ensures { IfOk result (Holds query.now (taken query.now (rows_of self.now))) }
    {
        for summary in self.summaries.as_slice() {
            match told(alloc, query, &self.file, summary) {
                Ok(groups) => return Ok(groups),
                Err(PickRefused::Untold) => (),
                Err(PickRefused::Memory) => return Err(AllocError),
            }
        }
        scan(alloc, query, &self.file)
    }
}
