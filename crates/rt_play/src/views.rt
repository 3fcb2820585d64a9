//! The law of a view's rows. It stands on a function that does nothing: its clause is the law.
ghost use Rattle.std.specs.Prelude.{◌≡◌, ℕ, List, map};
ghost use Rattle.rt_base.specs.declared.numbers.Partition.{Partition};
ghost use Rattle.rt_model.specs.Metadata.{metadata_of};
ghost use Rattle.rt_model.specs.Plan.{plan_of};
ghost use Rattle.rt_model.specs.RightAnswer.{AskedPiece};
ghost use Rattle.rt_model.specs.declared.node.Seen.{Seen};
ghost use Rattle.rt_play.specs.Laid.{laid};
ghost use Rattle.rt_schema.specs.declared.schema.Schema.{Schema};
ghost use Rattle.rt_upconf.specs.declared.upsert_config.UpsertConfig.{UpsertConfig};
ghost use Rattle.rt_upsert.specs.Latest.{start_of};
ghost use Rattle.rt_views.specs.Streamed.{put_streamed};

/// Over the pieces of a plan each row has its own place, so no row of a range that was served is left out of those whose latest are taken.
#[tactic(auto, using(crate::proofs::Laid::all_laid))]
pub fn no_row_of_a_view_is_left_out()
    ensures { (schema : Schema) (config : UpsertConfig) (messages : List (List ℕ)) (h : List Seen) (p : Partition) (pieces : List AskedPiece)
        → map (λ a. a.piece) pieces ≡ plan_of p (metadata_of h p)
        → (put_streamed schema messages (start_of schema config) pieces).rows ≡ laid schema messages pieces }
{}
