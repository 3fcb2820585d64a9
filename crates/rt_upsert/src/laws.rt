//! What callers rely on, over the definitions alone.
ghost use Rattle.std.specs.Prelude.{◌≡◌, [], filter};
ghost use Rattle.rt_lists.specs.Members.{Has};
ghost use Rattle.rt_schema.specs.declared.row.Row.{Row};
ghost use Rattle.rt_upsert.specs.declared.place.Place.{Place};
ghost use Rattle.rt_upsert.specs.Changes.{left};
ghost use Rattle.rt_upsert.specs.Laws.{SharesKey, IsLatestRow};
ghost use Rattle.rt_upsert.specs.Placed.{Placed, PlacedRows, is_out, with_row};

/// Of each key that a row has, some row is the latest.
#[tactic(auto, using(crate::proofs::LatestRows::some_latest))]
pub fn each_key_has_a_latest_row()
    ensures { (held : PlacedRows) (x : Placed) → Has held.rows x → (y : Placed) × IsLatestRow held y × SharesKey held y x }
{}

/// Of a key no two rows are the latest.
#[tactic(auto, using(crate::proofs::LatestRows::one_latest))]
pub fn no_key_has_two_latest_rows()
    ensures { (held : PlacedRows) (x y : Placed) → IsLatestRow held x → IsLatestRow held y → SharesKey held x y → x.place ≡ y.place }
{}

/// A row that is added behind the rows of its sequence and taken out again leaves what was before.
#[tactic(auto, using(crate::proofs::LatestRows::added_and_taken_out))]
pub fn what_is_taken_out_leaves_no_trace()
    ensures { (held : PlacedRows) (place : Place) (row : Row) → filter (is_out place.sequence place.row) held.rows ≡ [] → left place.sequence place.row (with_row held place row) ≡ held }
{}
