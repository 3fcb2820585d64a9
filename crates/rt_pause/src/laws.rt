//! What callers rely on, over the definitions alone.
ghost use Rattle.std.specs.Prelude.{◌≡◌, ◌↔◌, List, [], true, false};
ghost use Rattle.rt_lists.specs.Members.{Has};
ghost use Rattle.rt_model.specs.declared.node.Listed.{Listed};
ghost use Rattle.rt_model.specs.declared.replica_state.ReplicaState.TheVariants.{InitialConsuming};
ghost use Rattle.rt_model.specs.Metadata.{IsFinalStatus};
ghost use Rattle.rt_pause.specs.Forced.{Segment, nodes_of, pending_of};
ghost use Rattle.rt_pause.specs.Paused.{Turn, IsPaused, allows, paused_after};

/// A pause stands exactly from a line that pauses to the next that resumes.
#[tactic(auto, using(crate::proofs::Pauses::paused_is))]
pub fn a_run_is_paused_until_it_resumes()
    ensures { (turns : List Turn) → (paused_after false turns ≡ true) ↔ IsPaused turns }
{}

/// While a run is paused no replica begins to consume.
#[tactic(auto, using(crate::proofs::Pauses::none_begins))]
pub fn no_replica_begins_while_paused()
    ensures { (turns : List Turn) → IsPaused turns → allows (paused_after false turns) InitialConsuming ≡ false }
{}

/// Where a job names no segment, each of its segments is Done or Abandoned, or its node is gone.
#[tactic(auto, using(crate::proofs::Pending::none_pending))]
pub fn a_job_that_names_none_has_ended()
    ensures { (nodes : List (List Listed)) (segments : List Segment) → pending_of nodes segments ≡ []
        → (s : Segment) → Has segments s → (node : Listed) → Has (nodes_of nodes s.0) node → node.sequence ≡ s.1 → IsFinalStatus node.seen.meta.status }
{}
