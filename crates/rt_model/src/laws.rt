//! The laws of a lawful history. Each stands on a function that does nothing: its clause is the law, for
//! every starting contents and every list of writes. A history is lawful where it has the starting
//! contents and then writes of which each was lawful over some front of the writes before it, which its
//! writer had seen, and took effect by the rules of the store on all of them.
ghost use Rattle.std.specs.Prelude.{◌≡◌, ◌<◌, ℕ, ◌⊎◌, List, ◌++◌, ◌∷◌, [], IsTrue, IsFalse};
ghost use Rattle.rt_base.specs.declared.numbers.Instance.{Instance};
ghost use Rattle.rt_base.specs.declared.numbers.Partition.{Partition};
ghost use Rattle.rt_base.specs.declared.numbers.Sequence.{Sequence};
ghost use Rattle.rt_lists.specs.Members.{Has};
ghost use Rattle.rt_model.specs.declared.ideal_state.IdealState.{IdealState};
ghost use Rattle.rt_model.specs.declared.node.Listed.{Listed};
ghost use Rattle.rt_model.specs.declared.node.Key.TheVariants as key;
ghost use Rattle.rt_model.specs.declared.node.Node.TheVariants as node;
ghost use Rattle.rt_model.specs.declared.node.Seen.{Seen};
ghost use Rattle.rt_model.specs.History.{IsVersioned, next_version};
ghost use Rattle.rt_model.specs.Chain.{InOrder};
ghost use Rattle.rt_model.specs.Entries.{HasEntry};
ghost use Rattle.rt_model.specs.Ideal.{has_entry, next_sequence, remove_segment_of};
ghost use Rattle.rt_model.specs.Metadata.{IsDone, listed_write};
ghost use Rattle.rt_model.specs.Starting.{Starting, IsAssigned, starting_contents};
ghost use Rattle.rt_model.specs.Lawful.{IsIdealStep, IsLawfulDelete, IsLawfulStep, IsLawfulHistory};
ghost use Rattle.rt_model.specs.Laws.{
  Begins,
  HasChains,
  HasLives,
  HasEndings,
  HasDeletions,
  HasTiles,
  MarksRise,
  HasIdealState,
  HasGroundedEntries,
  HasUnbrokenRuns,
  HasRisingRuns,
  HasPassedDeletions,
  HasOrderedEntries,
  HasEveryPartition,
  HasListings,
  HasRead,
};

/// The starting contents alone are a lawful history.
pub fn the_starting_contents_are_lawful()
    ensures { (s : Starting) → IsLawfulHistory s (starting_contents s) }
{}

/// Each server's boot node is among the starting contents.
pub fn every_server_starts_with_its_boot_node()
    ensures { (s : Starting) (i : Instance) → i.0 < s.servers
        → 0 < next_version (starting_contents s) (key.Boot i) }
{}

/// Nothing is committed in the starting contents.
pub fn no_starting_node_is_done()
    ensures { (s : Starting) (w : Seen) → Has (starting_contents s) w → IsDone w.node → ⊥ }
{}

/// One lawful write more keeps a history lawful.
pub fn a_lawful_write_keeps_a_history_lawful()
    ensures { (s : Starting) (h : List Seen) (w : Seen) → IsLawfulHistory s h → IsLawfulStep s h w
        → IsLawfulHistory s (h ++ w ∷ []) }
{}

/// Each front of a lawful history that has the starting contents is lawful, so that each law below holds of
/// every moment of a history.
pub fn every_front_is_lawful()
    ensures { (s : Starting) (h more : List Seen) → Begins s h → IsLawfulHistory s (h ++ more)
        → IsLawfulHistory s h }
{}

/// A write's version is the number of the earlier writes of its key.
pub fn versions_count_writes()
    ensures { (s : Starting) (h : List Seen) → IsLawfulHistory s h → IsVersioned h }
{}

/// Every partition has its chain.
pub fn every_partition_has_its_chain()
    ensures { (s : Starting) (h : List Seen) → IsLawfulHistory s h → HasChains s h }
{}

/// The nodes of every partition are in order: each below the lowest present one was created, ended and deleted, each
/// from there on was created and has ended or not, and each begins where the one before it left off.
pub fn lawful_nodes_are_in_order()
    ensures { (s : Starting) (h : List Seen) → IsLawfulHistory s h → (p : Partition) → p.0 < s.partitions
        → InOrder h p }
{}

/// Each segment's node is created once, ends at most once, and is deleted at most once after that.
pub fn every_node_has_one_life()
    ensures { (s : Starting) (h : List Seen) → IsLawfulHistory s h → HasLives s h }
{}

/// A Done or Abandoned node keeps the name and the start of its creation, and never changes but by its
/// deletion.
pub fn an_ended_node_changes_by_its_deletion_alone()
    ensures { (s : Starting) (h : List Seen) → IsLawfulHistory s h → HasEndings s h }
{}

/// Deletions go from the lowest segment up, and never reach the last one.
pub fn deletions_go_upwards()
    ensures { (s : Starting) (h : List Seen) → IsLawfulHistory s h → HasDeletions s h }
{}

/// The ranges of all Done writes of a partition tile the offsets from 0, and the committed ones are those
/// from the mark on.
pub fn done_ranges_tile_the_offsets()
    ensures { (s : Starting) (h : List Seen) → IsLawfulHistory s h → HasTiles s h }
{}

/// The mark of a partition never falls.
pub fn marks_never_fall()
    ensures { (s : Starting) (h more : List Seen) → IsLawfulHistory s h → IsLawfulHistory s (h ++ more)
        → MarksRise s h more }
{}

/// There is always an ideal state.
pub fn there_is_always_an_ideal_state()
    ensures { (s : Starting) (h : List Seen) → IsLawfulHistory s h → HasIdealState h }
{}

/// Each entry of each ideal state has its node created, and each ONLINE entry's node became Done.
pub fn every_entry_has_its_node()
    ensures { (s : Starting) (h : List Seen) → IsLawfulHistory s h → HasGroundedEntries h }
{}

/// The entries of a partition cover an unbroken run of sequences.
pub fn entries_cover_an_unbroken_run()
    ensures { (s : Starting) (h : List Seen) → IsLawfulHistory s h → HasUnbrokenRuns h }
{}

/// The lowest and the highest sequence with an entry never fall, and a partition that had an entry has one.
pub fn runs_of_entries_only_rise()
    ensures { (s : Starting) (h : List Seen) → IsLawfulHistory s h → HasRisingRuns h }
{}

/// No entry is of a segment that was deleted, or of one below it.
pub fn entries_have_passed_deleted_segments()
    ensures { (s : Starting) (h : List Seen) → IsLawfulHistory s h → HasPassedDeletions h }
{}

/// The entries of each ideal state ascend, and name no instance twice in a segment, where the partitions start on
/// distinct instances.
pub fn entries_ascend()
    ensures { (s : Starting) (h : List Seen) → IsAssigned s → IsLawfulHistory s h → HasOrderedEntries h }
{}

/// Each ideal state has an entry of each partition, where each partition starts on some instance.
pub fn every_partition_has_an_entry()
    ensures { (s : Starting) (h : List Seen) → IsAssigned s → IsLawfulHistory s h → HasEveryPartition s h }
{}

/// What is listed of a partition is one run of segments, from the lowest that isn't deleted to the last, and of
/// each the value of its key.
pub fn the_listed_segments_are_one_run()
    ensures { (s : Starting) (h : List Seen) → IsLawfulHistory s h → HasListings s h }
{}

/// A retirement that found no entry of the first listed segment may delete it: the ideal state that it read is one
/// that has left the segment.
pub fn a_retirement_deletes_lawfully()
    ensures { (s : Starting) (h more later : List Seen) (p : Partition) (first : Listed) (rest : List Listed) (state : IdealState)
        → IsAssigned s → HasRead s h more p first rest state
        → IsFalse (has_entry state.entries p first.sequence)
        → IsLawfulDelete ((h ++ more) ++ later) (listed_write p first) }
{}

/// A retirement that found entries of the segment after the first listed one may remove the first one's.
pub fn a_retirement_removes_lawfully()
    ensures { (s : Starting) (h more later : List Seen) (p : Partition) (first : Listed) (rest : List Listed) (state : IdealState)
        → HasRead s h more p first rest state
        → IsTrue (has_entry state.entries p (next_sequence first.sequence))
        → IsIdealStep ((h ++ more) ++ later) state.entries (remove_segment_of state.entries p first.sequence) }
{}

/// An ideal state from before a segment's entries is no witness for its deletion: where each one that was seen has
/// entries of the segment, or of earlier ones alone, the deletion isn't lawful.
pub fn an_older_ideal_state_is_no_witness()
    ensures { (seen : List Seen) (from : Seen) (p : Partition) (q : Sequence) → from.key ≡ key.Meta p q
        → ((w : Seen) (i : IdealState) → Has seen w → w.node ≡ node.Ideal i
        → HasEntry i.entries p q.0 ⊎ ((t : ℕ) → HasEntry i.entries p t → t < q.0))
        → IsLawfulDelete seen from → ⊥ }
{}
