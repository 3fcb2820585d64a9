//! What is true of the views of every safe world, and so of every world of every run. Each law stands on a function that does
//! nothing: its clause is the law.
ghost use Rattle.std.specs.Prelude.{◌≡◌, ◌<◌, map, slice_get, All, Some};
ghost use Rattle.rt_base.specs.declared.numbers.Instance.{Instance};
ghost use Rattle.rt_base.specs.declared.numbers.Partition.{Partition};
ghost use Rattle.rt_entry.specs.declared.served_rows.ServedRows.{ServedRows};
ghost use Rattle.rt_hybrid.specs.Sides.{IsHybridAnswer};
ghost use Rattle.rt_hybrid.specs.Table.{OfflineTable};
ghost use Rattle.rt_lists.specs.Members.{Has};
ghost use Rattle.rt_model.specs.declared.piece.Piece.{Piece};
ghost use Rattle.rt_model.specs.declared.query.Query.{Query};
ghost use Rattle.rt_server.specs.LastingRows.{AreRightRows};
ghost use Rattle.rt_stream.specs.Log.{messages_of};
ghost use Rattle.rt_upconf.specs.declared.upsert_config.UpsertConfig.{UpsertConfig};
ghost use Rattle.rt_views.specs.Answers.{hybrid_answer, latest_answer};
ghost use Rattle.rt_views.specs.Plans.{pieces_now, rows_from};
ghost use Rattle.rt_views.specs.Streamed.{IsLatestAnswer, IsViewOf};
ghost use Rattle.rt_views.specs.Views.{routed_of, rows_if, views_each, views_whole};
ghost use Rattle.rt_state.specs.IsSafeWorld.{IsSafeWorld};
ghost use Rattle.rt_world.specs.Reading.{rows_of_node};
ghost use Rattle.rt_state.specs.declared.state.State.{State};

/// A view takes of a piece of a present plan all that a server serves of it: no piece ends before it begins, the rows are
/// exactly those of the stream in the range that is served, and so all are rows of the schema and count.
pub fn no_view_leaves_out_what_is_served()
    ensures taken { (w : State) (p : Partition) (piece : Piece) (i : Instance) → IsSafeWorld w → p.0 < w.setup.partitions → Has (pieces_now w p) piece
        → rows_from w piece i ≡ rows_of_node (slice_get w.servers i.0) piece }
    ensures right { (w : State) (piece : Piece) (i : Instance) (served : ServedRows) → IsSafeWorld w → rows_from w piece i ≡ Some served
        → AreRightRows w.setup.schema (messages_of w.log piece.partition) piece served }
    ensures counted { (w : State) (piece : Piece) (i : Instance) (served : ServedRows) → IsSafeWorld w → rows_from w piece i ≡ Some served
        → rows_if w.setup.schema (Some served) ≡ served.rows }
{}

/// A view has each piece of its partition's present plan, once and in order, and what was found of a piece are exactly the
/// stream's rows from the piece's start on, up to its end where it has one.
pub fn a_view_has_each_piece_of_its_plan()
    ensures each { (w : State) → IsSafeWorld w → All (IsViewOf w) (views_each w) }
    ensures whole { (w : State) → IsSafeWorld w → All (IsViewOf w) (views_whole w) }
{}

/// A hybrid answer names what each partition's present plan was served and what it wasn't, and aggregates the offline rows at
/// or before the boundary and each row of the stream past it in the ranges that it names, once.
pub fn a_hybrid_answer_is_right()
    ensures { (w : State) (table : OfflineTable) (query : Query) → IsSafeWorld w → table.schema ≡ w.setup.schema
        → IsHybridAnswer table w.log query (map routed_of (views_each w)) (hybrid_answer w table query) }
{}

/// An answer over the latest rows names what each partition's present plan was served and what it wasn't, and aggregates,
/// partition by partition, the latest of the stream's rows in the ranges that were served.
pub fn a_latest_answer_is_right()
    ensures { (w : State) (config : UpsertConfig) (query : Query) → IsSafeWorld w
        → IsLatestAnswer w.setup.schema config w.log query (map routed_of (views_whole w)) (latest_answer w config query) }
{}
