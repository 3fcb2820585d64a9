ghost use Rattle.std.specs.Prelude.{◌≡◌, ℕ, true, false, List, Some, None, option_map};
ghost use Rattle.serde_json.specs.Data.{string, no_members};
ghost use Rattle.rt_lists.specs.Members.{Has};
ghost use Rattle.rt_base.specs.declared.numbers.Partition.{Partition};
ghost use Rattle.rt_base.specs.declared.numbers.Sequence.{Sequence};
ghost use Rattle.rt_base.specs.declared.numbers.Instance.{Instance};
ghost use Rattle.rt_model.specs.declared.ideal_state.IdealEntry.{IdealEntry};
ghost use Rattle.rt_model.specs.declared.ideal_state.Mode.TheVariants.{Online};
ghost use Rattle.rt_model.specs.Ideal.{
  next_sequence,
  is_of,
  is_of_instance,
  has_entry,
  mode_of,
  goes_on,
  offline_mode,
  commit_step_of,
  add_consuming_of,
  set_offline_of,
  remove_segment_of,
};
ghost use Rattle.rt_model.specs.Order.{IsAscending, AreDistinct};
ghost use Rattle.rt_ideal.specs.Others.{others, is_of_two};
ghost use Rattle.rt_ideal.specs.Setting.{consuming_on};
ghost use Rattle.rt_ideal.specs.Shown.{shown_at, AreWords, IsInOrder, AreInOrder};
ghost use Rattle.rt_ideal.specs.Text.{segment_text, instance_text, mode_text, with_entries_text};

/// Each step keeps the entries ascending, where the instances that it adds are distinct.
#[tactic(auto, using(rt_model::proofs::Ascending::commit_ascends, rt_model::proofs::Ascending::add_ascends, rt_model::proofs::Ascending::offline_ascends, rt_model::proofs::Ascending::remove_ascends))]
pub fn steps_keep_the_order()
    ensures commits { (es : List IdealEntry) (p : Partition) (s : Sequence) (next : List Instance)
        → IsAscending es → AreDistinct next → IsAscending (commit_step_of es p s next) }
    ensures adds { (es : List IdealEntry) (p : Partition) (s : Sequence) (instances : List Instance)
        → IsAscending es → AreDistinct instances → IsAscending (add_consuming_of es p s instances) }
    ensures turns_offline { (es : List IdealEntry) (p : Partition) (s : Sequence) (i : Instance)
        → IsAscending es → IsAscending (set_offline_of es p s i) }
    ensures removes { (es : List IdealEntry) (p : Partition) (s : Sequence)
        → IsAscending es → IsAscending (remove_segment_of es p s) }
{}

/// Each step changes no entry that it doesn't name: all others stand as before, in their order. A commit names its
/// segment and the next one, a stop one instance's entry of a segment, the other two steps a segment.
#[tactic(auto, using(crate::proofs::Unnamed::commit_others, crate::proofs::Unnamed::add_others, crate::proofs::Unnamed::offline_others, crate::proofs::Unnamed::remove_others))]
pub fn steps_change_named_entries_alone()
    ensures commits { (es : List IdealEntry) (p : Partition) (s : Sequence) (next : List Instance)
        → others (is_of_two p s) (commit_step_of es p s next) ≡ others (is_of_two p s) es }
    ensures adds { (es : List IdealEntry) (p : Partition) (s : Sequence) (instances : List Instance)
        → others (is_of p s) (add_consuming_of es p s instances) ≡ others (is_of p s) es }
    ensures turns_offline { (es : List IdealEntry) (p : Partition) (s : Sequence) (i : Instance)
        → others (is_of_instance p s i) (set_offline_of es p s i) ≡ others (is_of_instance p s i) es }
    ensures removes { (es : List IdealEntry) (p : Partition) (s : Sequence)
        → others (is_of p s) (remove_segment_of es p s) ≡ others (is_of p s) es }
{}

/// What each step sets. A commit turns the entries of its segment ONLINE, all of them and on no other instance, and where
/// the next segment has no entry it consumes then on exactly the instances `next`; entries of the next segment stay as
/// they are, and a segment without an entry changes nothing. A segment that is added consumes on exactly the instances
/// named, where it has no entry and comes next; otherwise nothing changes. A stop turns a CONSUMING entry OFFLINE. A
/// removed segment has no entry.
pub fn steps_set_what_they_name()
    ensures serves { (es : List IdealEntry) (p : Partition) (s : Sequence) (next : List Instance) (i : Instance)
        → mode_of (commit_step_of es p s next) p s i ≡ option_map (λ m. Online) (mode_of es p s i) }
    ensures consumes { (es : List IdealEntry) (p : Partition) (s : Sequence) (next : List Instance) (i : Instance)
        → has_entry es p s ≡ true → has_entry es p (next_sequence s) ≡ false
        → mode_of (commit_step_of es p s next) p (next_sequence s) i ≡ consuming_on next i }
    ensures leaves { (es : List IdealEntry) (p : Partition) (s : Sequence) (next : List Instance) (i : Instance)
        → has_entry es p (next_sequence s) ≡ true
        → mode_of (commit_step_of es p s next) p (next_sequence s) i ≡ mode_of es p (next_sequence s) i }
    ensures commits_nothing { (es : List IdealEntry) (p : Partition) (s : Sequence) (next : List Instance)
        → has_entry es p s ≡ false → commit_step_of es p s next ≡ es }
    ensures adds { (es : List IdealEntry) (p : Partition) (s : Sequence) (instances : List Instance) (i : Instance)
        → has_entry es p s ≡ false → goes_on es p s.0 ≡ true
        → mode_of (add_consuming_of es p s instances) p s i ≡ consuming_on instances i }
    ensures adds_nothing_twice { (es : List IdealEntry) (p : Partition) (s : Sequence) (instances : List Instance)
        → has_entry es p s ≡ true → add_consuming_of es p s instances ≡ es }
    ensures adds_in_order_alone { (es : List IdealEntry) (p : Partition) (s : Sequence) (instances : List Instance)
        → goes_on es p s.0 ≡ false → add_consuming_of es p s instances ≡ es }
    ensures stops { (es : List IdealEntry) (p : Partition) (s : Sequence) (i : Instance)
        → mode_of (set_offline_of es p s i) p s i ≡ option_map offline_mode (mode_of es p s i) }
    ensures removes { (es : List IdealEntry) (p : Partition) (s : Sequence)
        → has_entry (remove_segment_of es p s) p s ≡ false }
{}

/// The text of a state has each entry once: under the keys of its segment and its instance stands its mode, under no
/// other keys stands anything, and the keys of each object ascend, so that none comes twice.
pub fn a_text_has_each_entry_once()
    ensures each { (es : List IdealEntry) (e : IdealEntry) → IsAscending es → AreWords es → Has es e
        → shown_at (segment_text e.partition e.sequence) (instance_text e.instance) (with_entries_text no_members es)
        ≡ Some (string (mode_text e.mode)) }
    ensures no_more { (es : List IdealEntry) (segment instance : List ℕ)
        → ((e : IdealEntry) → Has es e → segment ≡ segment_text e.partition e.sequence → instance ≡ instance_text e.instance → ⊥)
        → shown_at segment instance (with_entries_text no_members es) ≡ None }
    ensures once { (es : List IdealEntry)
        → IsInOrder (with_entries_text no_members es) × AreInOrder (with_entries_text no_members es) }
{}
