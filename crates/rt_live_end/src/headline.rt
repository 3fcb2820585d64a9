//! What a run that ended rightly is to its reader. Each law stands on a function that does nothing: its clause is the
//! law.
ghost use Rattle.std.specs.Prelude.{◌≡◌, ◌<◌, ℕ, List, length, slice_get, Some};
ghost use Rattle.rt_base.specs.declared.numbers.Offset.{Offset};
ghost use Rattle.rt_base.specs.declared.numbers.Partition.{Partition};
ghost use Rattle.rt_ground.specs.StoreCalls.{seen_by};
ghost use Rattle.rt_live_end.specs.Ends.{committed_end};
ghost use Rattle.rt_live_end.specs.Headline.{EndsRightly, IsAnsweredOverAll};
ghost use Rattle.rt_live_end.specs.Input.{messages_to};
ghost use Rattle.rt_live_names.specs.Fronts.{Fronts};
ghost use Rattle.rt_live_names.specs.Names.{Names};
ghost use Rattle.rt_model.specs.declared.answer.Answer.{Answer};
ghost use Rattle.rt_model.specs.declared.query.Query.{Query};
ghost use Rattle.rt_store.specs.Contents.{starting_of};

/// Each partition is committed up to the number of its messages in the input, and each query has an answer that
/// aggregates all rows of the input.
pub fn a_run_that_ends_rightly_leaves_nothing_out()
    ensures committed { (n : Names) (met : Fronts) (answers : List Answer) (ends : List Offset)
        → EndsRightly n met answers ends → (p : Partition) → p.0 < n.setup.partitions
        → committed_end (seen_by (starting_of n.setup) met.store) p
        ≡ length (messages_to p n.rows) }
    ensures answered { (n : Names) (met : Fronts) (answers : List Answer) (ends : List Offset)
        → EndsRightly n met answers ends → (k : ℕ) (query : Query)
        → slice_get n.queries k ≡ Some query → IsAnsweredOverAll n answers k query }
{}
