//! What callers rely on, over the definitions alone.
ghost use Rattle.std.specs.Prelude.{◌≡◌, All, true, false};
ghost use Rattle.rt_schema.specs.declared.schema.Schema.{Schema};
ghost use Rattle.rt_model.specs.declared.query.Query.{Query};
ghost use Rattle.rt_model.specs.Checked.{IsQuery};
ghost use Rattle.rt_model.specs.Match.{passes};
ghost use Rattle.rt_segment.specs.Segment.{SealedSegment, IsSealed, rows_of};
ghost use Rattle.rt_scan.specs.Filled.{HasKinds, rows_as};
ghost use Rattle.rt_scan.specs.Scanned.{FitsSealed};
ghost use Rattle.rt_scan.specs.Skips.{skips_of};

/// No row of a segment that is skipped passes the query's filter.
#[tactic(auto, using(crate::proofs::Skipped::none_passes))]
pub fn skipped_rows_fail()
    ensures { (query : Query) (sealed : SealedSegment) → IsSealed sealed → FitsSealed query sealed → skips_of query.filter sealed ≡ true → All (λ row. passes query.filter row ≡ false) (rows_of sealed) }
{}

/// Nor does one pass that is filled, as [`crate::scan_as`] fills it, where the segment lacks columns of a query's schema.
pub fn skipped_filled_rows_fail()
    ensures { (query : Query) (schema : Schema) (sealed : SealedSegment) → IsSealed sealed → IsQuery schema query → HasKinds schema sealed → skips_of query.filter sealed ≡ true → All (λ row. passes query.filter row ≡ false) (rows_as schema sealed) }
{}
