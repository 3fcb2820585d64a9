//! What is missing of an answer and of a view, and why. Each stands on a function that does nothing: its clauses are the law.
ghost use Rattle.std.specs.Prelude.{◌≡◌, ℕ, List, None, Ok};
ghost use Rattle.rt_base.specs.declared.numbers.Instance.{Instance};
ghost use Rattle.rt_base.specs.declared.numbers.Partition.{Partition};
ghost use Rattle.rt_lists.specs.Members.{Has};
ghost use Rattle.rt_macros.specs.Doing.{Reached};
ghost use Rattle.rt_macros.specs.Querying.{QueryTold};
ghost use Rattle.rt_model.specs.Checked.{IsQuery};
ghost use Rattle.rt_model.specs.Setup.{IsSetup};
ghost use Rattle.rt_model.specs.declared.piece.Piece.{Piece};
ghost use Rattle.rt_model.specs.declared.query.Query.{Query};
ghost use Rattle.rt_model.specs.declared.setup.Setup.{Setup};
ghost use Rattle.rt_play.specs.Causes.{MissesForCause};
ghost use Rattle.rt_play.specs.Missed.{MissesSo};
ghost use Rattle.rt_safety.specs.Runs.{Runs, Turn};
ghost use Rattle.rt_state.specs.IsSafeWorld.{IsSafeWorld};
ghost use Rattle.rt_state.specs.declared.state.State.{State};
ghost use Rattle.rt_views.specs.Plans.{assigned_to, pieces_now, rows_from};
ghost use Rattle.rt_views.specs.Views.{found_each, found_whole};
ghost use Rattle.rt_views.specs.declared.found.Found.{Found};

/// The answer of a `query` line misses a piece only where each of the partition's servers is down, or doesn't serve it, in the world in which
/// the line is said; and the piece is one of the plan over that world's metadata list.
pub fn a_query_line_misses_what_no_server_serves()
    ensures { (query : Query) (w : State) (v : Reached) (text : List ℕ) → IsSafeWorld w → IsQuery w.setup.schema query → QueryTold query w v (Ok text)
        → MissesSo w text }
{}

/// An answer of a run, of an `answer` line or of a `query` line, misses nothing without its cause in the turns before it. Where a piece is
/// missing, each of the partition's servers was asked for it for this query, and was down in the world in which it was asked, or didn't serve
/// it, as was told of that turn; and the piece is one of the plan with which the query's partition was routed. Where a partition is missing whole, it was to be routed for
/// this query, and the store failed, as was planned.
pub fn an_answer_misses_only_what_was_refused()
    ensures { (setup : Setup) (turns : List Turn) (w : State) → IsSetup setup → Runs setup turns w → MissesForCause setup turns w }
{}

/// A view misses a piece only where no server of the partition that is up serves it; and one that takes all pieces of a partition from one
/// server, only where each of them lacks one.
#[tactic(auto, using(crate::proofs::Misses::each_misses, crate::proofs::Misses::whole_misses))]
pub fn a_view_misses_what_no_server_serves()
    ensures each { (w : State) (p : Partition) (piece : Piece) (i : Instance) → (found_each w p piece).rows ≡ None → Has (assigned_to w p) i
        → rows_from w piece i ≡ None }
    ensures whole { (w : State) (p : Partition) (f : Found) (i : Instance) → Has (found_whole w p) f → f.rows ≡ None → Has (assigned_to w p) i
        → (x : Piece) × Has (pieces_now w p) x × (rows_from w x i ≡ None) }
{}
