ghost use Rattle.std.specs.Prelude.{◌≡◌, ◌<◌, ◌↔◌, ℕ, true, List, Some, is_some, Result, Err};
ghost use Rattle.std.specs.List.Sorted.{IsStrictlySortedBy};
ghost use Rattle.rt_base.specs.declared.numbers.Instance.{Instance};
ghost use Rattle.rt_lists.specs.Members.{Has};
ghost use Rattle.rt_model.specs.declared.ideal_state.IdealEntry.{IdealEntry};
ghost use Rattle.rt_model.specs.declared.setup.Setup.{Setup};
ghost use Rattle.rt_model.specs.Ideal.{mode_of};
ghost use Rattle.rt_entry.specs.declared.entry.Entry.{Entry};
ghost use Rattle.rt_base.specs.declared.numbers.Moment.{Moment};
ghost use Rattle.rt_base.specs.declared.numbers.Partition.{Partition};
ghost use Rattle.rt_base.specs.declared.numbers.Sequence.{Sequence};
ghost use Rattle.rt_model.specs.declared.ideal_state.Mode.{Mode};
ghost use Rattle.rt_model.specs.declared.node.Key.TheVariants as key;
ghost use Rattle.rt_model.specs.declared.replica_state.ReplicaState.{ReplicaState};
ghost use Rattle.rt_model.specs.Lawful.{bump};
ghost use Rattle.rt_msgs.specs.Numbered.{Numbered};
ghost use Rattle.rt_stream.specs.Feed.{FeedMeaning};
ghost use Rattle.rt_store.specs.Answers.{answer_of, after_call, reading};
ghost use Rattle.rt_store.specs.Calls.{answer_on, told_on};
ghost use Rattle.rt_store.specs.Meaning.{Meaning, Told};
ghost use Rattle.rt_deep.specs.Meaning as deep;
ghost use Rattle.rt_schema.specs.declared.schema.Schema.{Schema};
ghost use Rattle.rt_server.specs.Download.{Downloads};
ghost use Rattle.rt_store.specs.Memory.{means};
ghost use Rattle.rt_entry.specs.declared.refused.ServerRefused.{ServerRefused};
ghost use Rattle.rt_server.specs.Calls.{Asks, AsksFor, Forces, RanOut, Restarts, Seals, SeesIdeal, Stops, Takes, Transits, TransitsTo, restarted_by, seen_by, stepped_by, targets_of};
ghost use Rattle.rt_entry.specs.Calls.{Comes};
ghost use Rattle.rt_entry.specs.declared.refused.ServerRefused.TheVariants.{Memory, StoreFault};
ghost use Rattle.rt_server.specs.Past.{HasHistory};
ghost use Rattle.rt_server.specs.Named.{IsNamed};
ghost use Rattle.rt_server.specs.Due.{due_of, held_of, wanted_of};
ghost use Rattle.rt_server.specs.Kept.{IsServer};
ghost use Rattle.rt_server.specs.Table.{Segment, Segments, ServerState, entry_of, replica_of, segment_cmp, target_of, wants_at};
ghost use Rattle.rt_server.specs.Transition.{transit_due, transited};

/// Over a store that tells everything a server's call comes to one thing, but that memory may run out.
#[tactic(auto, using(crate::proofs::Told::sees_exact, crate::proofs::Told::transits_exact, crate::proofs::Told::restarts_exact))]
pub fn calls_over_told_stores_are_exact()
    ensures sees { (t u : Told) (old new : ServerState) (result : Result ℕ ServerRefused)
        → SeesIdeal (means t) (means u) old new result → IsNamed result
        → (u ≡ told_on t (λ base. base))
        × Comes (seen_by old (answer_on t (reading key.Ideal))) old new result }
    ensures transits { (t u : Told) (old new : ServerState) (p : Partition) (q : Sequence) (mode : Mode) (now : Moment)
        (result : Result ReplicaState ServerRefused)
        → TransitsTo (Some mode) (means t) (means u) old new p q now result → IsNamed result
        → (u ≡ told_on t (λ base. base))
        × Comes (stepped_by old (transited old.setup old.table p q now mode (answer_on t (reading (key.Meta p q))))) old new result }
    ensures restarts { (t u : Told) (old new : ServerState) (result : Result ℕ ServerRefused)
        → Restarts (means t) (means u) old new result → IsNamed result
        → (u ≡ told_on t (after_call (bump old.numbers.instance)))
        × Comes (restarted_by old (answer_on t (answer_of (λ w. w.version) (bump old.numbers.instance)))) old new result }
{}

/// A refused call of a segment's replica leaves all entries as they were, and so does a download that is refused. A refused call
/// of a store leaves the server as it was, and a restart that ran out of memory has written nothing.
#[tactic(auto, using(crate::proofs::Unchanged::takes_stay, crate::proofs::Unchanged::forces_stay, crate::proofs::Unchanged::stops_stay, crate::proofs::Unchanged::seals_stay, crate::proofs::Unchanged::asks_stay, crate::proofs::Unchanged::asks_for_stay, crate::proofs::Unchanged::downloads_stay))]
pub fn a_refused_call_changes_nothing()
    ensures takes { (before after : FeedMeaning) (old new : Segments) (p : Partition) (q : Sequence) (max : ℕ) (now : Moment)
        (e : ServerRefused) → Takes before after old new p q max now (Err e) → new ≡ old }
    ensures forces { (old new : Segments) (p : Partition) (q : Sequence) (e : ServerRefused) → Forces old new p q (Err e) → new ≡ old }
    ensures stops { (old new : Segments) (p : Partition) (q : Sequence) (e : ServerRefused) → Stops old new p q (Err e) → new ≡ old }
    ensures seals { (old new : Segments) (p : Partition) (q : Sequence) (e : ServerRefused) → Seals old new p q (Err e) → new ≡ old }
    ensures asks { (before after : Numbered) (old new : Segments) (p : Partition) (q : Sequence) (e : ServerRefused)
        → Asks before after old new p q (Err e) → new ≡ old }
    ensures asks_for { (before after : Numbered) (millis : ℕ) (old new : Segments) (p : Partition) (q : Sequence) (e : ServerRefused)
        → AsksFor before after millis old new p q (Err e) → new ≡ old }
    ensures sees { (before after : Meaning) (old new : ServerState) (e : ServerRefused)
        → SeesIdeal before after old new (Err e) → new ≡ old }
    ensures transits { (before after : Meaning) (old new : ServerState) (p : Partition) (q : Sequence) (now : Moment) (e : ServerRefused)
        → Transits before after old new p q now (Err e) → new ≡ old }
    ensures restarts { (before after : Meaning) (old new : ServerState) (e : ServerRefused)
        → Restarts before after old new (Err e) → (new ≡ old) × (e ≡ Memory → RanOut before after) }
    ensures downloads { (before after : deep.Meaning) (schema : Schema) (old new : Segments) (p : Partition) (q : Sequence)
        (e : ServerRefused) → Downloads before after schema old new p q (Err e) → new ≡ old }
{}

/// A fault of a store or the deep store is answered only where its count of faults rose in the call.
#[tactic(auto, using(crate::proofs::Faults::transits_rose, crate::proofs::Faults::sees_rose, crate::proofs::Faults::restarts_rose, crate::proofs::Faults::downloads_rose))]
pub fn a_store_fault_raises_the_count()
    ensures transits { (before after : Meaning) (old new : ServerState) (p : Partition) (q : Sequence) (now : Moment)
        → Transits before after old new p q now (Err StoreFault) → before.faults < after.faults }
    ensures sees { (before after : Meaning) (old new : ServerState) → HasHistory old before
        → SeesIdeal before after old new (Err StoreFault) → before.faults < after.faults }
    ensures restarts { (before after : Meaning) (old new : ServerState)
        → Restarts before after old new (Err StoreFault) → before.faults < after.faults }
    ensures downloads { (before after : deep.Meaning) (schema : Schema) (old new : Segments) (p : Partition) (q : Sequence)
        → Downloads before after schema old new p q (Err StoreFault) → before.faults < after.faults }
{}

/// The lists of segments have those that the single tests tell, each once and ascending.
pub fn each_list_has_what_its_test_tells()
    ensures due { (t : Segments) (p : Partition) (q : Sequence)
        → Has (due_of t) (p, q) ↔ (transit_due t p q ≡ true) }
    ensures due_ascend { (t : Segments) → IsStrictlySortedBy segment_cmp (due_of t) }
    ensures wanted { (setup : Setup) (t : Segments) (p : Partition) (q : Sequence)
        → IsServer setup t → Has (wanted_of t) (p, q) ↔ (wants_at (entry_of t p q) ≡ true) }
    ensures wanted_ascend { (setup : Setup) (t : Segments) → IsServer setup t
        → IsStrictlySortedBy segment_cmp (wanted_of t) }
    ensures held { (setup : Setup) (t : Segments) (p : Partition) (q : Sequence) → IsServer setup t
        → Has (held_of t) (p, q) ↔ (is_some (replica_of t p q) ≡ true) }
    ensures held_ascend { (setup : Setup) (t : Segments) → IsServer setup t
        → IsStrictlySortedBy segment_cmp (held_of t) }
{}

/// The target of a segment is the mode in which an ideal state asks it of the instance.
pub fn a_target_is_what_the_ideal_state_asks()
    ensures { (i : Instance) (es : List IdealEntry) (entries : List (Segment × Entry)) (p : Partition) (q : Sequence)
        → target_of (record { targets = targets_of i es; entries = entries }) p q ≡ mode_of es p q i }
{}
