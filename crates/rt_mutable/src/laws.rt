//! What callers rely on, over the definitions alone.
ghost use Rattle.std.specs.Prelude.{◌≡◌, ◌<◌, ℕ, List, length, map, slice_get, slice_index};
ghost use Rattle.rt_schema.specs.declared.row.Row.{Row};
ghost use Rattle.rt_schema.specs.declared.schema.Schema.{Schema};
ghost use Rattle.rt_schema.specs.declared.value.Value.{Value};
ghost use Rattle.rt_schema.specs.Row.{IsRowOf};
ghost use Rattle.rt_mutable.specs.Arrivals.{arrivals_of, ids_of};
ghost use Rattle.rt_mutable.specs.Column.{same_value};
ghost use Rattle.rt_mutable.specs.Consuming.{shape_of, FitsColumns};

/// A row of a schema fits the columns of a segment of that schema, whichever are indexed.
#[tactic(auto, using(crate::proofs::ForCallers::rows_fit))]
pub fn rows_of_a_schema_fit()
    ensures { (schema : Schema) (indexed : List (List ℕ)) (row : Row) → IsRowOf schema row → FitsColumns (map (shape_of indexed) schema.columns) row }
{}

/// The id of a row leads to the row's value among the distinct ones.
#[tactic(auto, using(crate::proofs::ForCallers::ids_lead))]
pub fn ids_lead_to_values()
    ensures { (values : List Value) (row : ℕ) → row < length values → slice_get (arrivals_of same_value values) (slice_index (ids_of same_value values) row) ≡ slice_get values row }
{}
