//! What the sides and the boundary are, over the definitions alone.
ghost use Rattle.std.specs.Prelude.{◌≡◌, ◌↔◌, ◌≤ℤ◌, ◌+◌, ◌<◌, ℤ, List, [], length, not, All, Some, None};
ghost use Rattle.serde_json.specs.Data.{Data};
ghost use Rattle.rt_lists.specs.Members.{Has};
ghost use Rattle.rt_schema.specs.declared.column.Column.{Column};
ghost use Rattle.rt_schema.specs.declared.row.Row.{Row as AnyRow};
ghost use Rattle.rt_model.specs.declared.answer.ResultRow.{ResultRow};
ghost use Rattle.rt_model.specs.declared.query.Query.{Query};
ghost use Rattle.rt_model.specs.Aggregate.{aggregate, taken};
ghost use Rattle.rt_agg.specs.Grouped.{Finishes, Grouped, Holds, Merges};
ghost use Rattle.rt_hybrid.specs.Batch.{columns_kept};
ghost use Rattle.rt_hybrid.specs.Kept.{AreKept};
ghost use Rattle.rt_hybrid.specs.Sides.{hybrid_rows, is_offline_row, is_realtime_row, offline_side, realtime_side};
ghost use Rattle.rt_hybrid.specs.Table.{OfflineTable, greatest_of};

/// A time lies on exactly one side: where an offline row would count no realtime row does, and the other way round.
#[tactic(auto, using(crate::proofs::OneSide::other_side))]
pub fn each_time_is_on_one_side()
    ensures { (table : OfflineTable) (row : AnyRow) → is_realtime_row table row ≡ not (is_offline_row table row) }
{}

/// The boundary is one day before the greatest time: it is the time of some row, no row has a greater one, and there is none
/// exactly where there is no row.
#[tactic(auto, using(crate::proofs::Greatest::none_greatest))]
pub fn the_greatest_time_is_of_a_row()
    ensures some { (times : List ℤ) (time : ℤ) → greatest_of times ≡ Some time → Has times time × All (λ other. other ≤ℤ time) times }
    ensures none { (times : List ℤ) → (greatest_of times ≡ None) ↔ (times ≡ []) }
{}

/// Merged groups of both sides finish as the result rows of the query over the rows of both.
#[tactic(auto, using(crate::proofs::Merged::merged_finish))]
pub fn merged_sides_are_the_hybrid_rows()
    ensures { (table : OfflineTable) (query : Query) (rows : List AnyRow) (offline realtime merged : Grouped) (result : List ResultRow)
        → Holds query (taken query (offline_side table)) offline → Holds query (taken query (realtime_side table rows)) realtime
        → Merges offline realtime merged → length (taken query (offline_side table)) + length (taken query (realtime_side table rows)) < 9223372036854775808
        → Finishes merged result → result ≡ aggregate query (hybrid_rows table rows) }
{}

/// The file of a push has a column exactly where some object of the text has it, with null or another value, in the order
/// of the schema; where no object has any, it has the schema's first column.
pub fn a_column_is_kept_where_some_object_has_it()
    ensures { (columns : List Column) (items : List Data) → AreKept columns items (columns_kept columns items) }
{}
