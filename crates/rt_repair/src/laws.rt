//! The laws of repairs and retirements. Each stands on a function that does nothing: its clause is the law.
ghost use Rattle.std.specs.Prelude.{◌≡◌, ◌<◌, ℕ, Bool, true, false, List, [], length, option_map};
ghost use Rattle.rt_base.specs.declared.numbers.Moment.{Moment};
ghost use Rattle.rt_base.specs.declared.numbers.Partition.{Partition};
ghost use Rattle.rt_base.specs.declared.numbers.Sequence.{Sequence};
ghost use Rattle.rt_model.specs.declared.ideal_state.IdealEntry.{IdealEntry};
ghost use Rattle.rt_model.specs.declared.node.Listed.{Listed};
ghost use Rattle.rt_model.specs.declared.node.Seen.{Seen};
ghost use Rattle.rt_model.specs.declared.setup.Setup.{Setup};
ghost use Rattle.rt_model.specs.Entries.{entries_by};
ghost use Rattle.rt_model.specs.Ideal.{has_entry, goes_on};
ghost use Rattle.rt_model.specs.Lawful.{IsLawfulHistory};
ghost use Rattle.rt_model.specs.Repair.{decide};
ghost use Rattle.rt_model.specs.Setup.{IsSetup};
ghost use Rattle.rt_model.specs.Starting.{Starting, IsAssigned};
ghost use Rattle.rt_store.specs.Meaning.{Told, Meaning};
ghost use Rattle.rt_store.specs.Memory.{means};
ghost use Rattle.rt_repair.specs.Alone.{IsRepaired, SettlesAlone, run_alone};
ghost use Rattle.rt_repair.specs.Converging.{Standing, CanSettle, SettlesIn, standing_of};
ghost use Rattle.rt_repair.specs.IsRepair.{IsRepair};
ghost use Rattle.rt_repair.specs.IsRetire.{IsRetire};
ghost use Rattle.rt_repair.specs.Owning.{GainsUndone};
ghost use Rattle.rt_repair.specs.ReadNode.{last_node, lowest_node};
ghost use Rattle.rt_repair.specs.Repairing.{Repairing, decision_at, added_entries};
ghost use Rattle.rt_repair.specs.Repairing as repairs;
ghost use Rattle.rt_repair.specs.RepairSteps as of_repair;
ghost use Rattle.rt_repair.specs.Retired.{retire};
ghost use Rattle.rt_repair.specs.Retirement.{Retirement, retiring_at};
ghost use Rattle.rt_repair.specs.Retirement as retirements;
ghost use Rattle.rt_repair.specs.RetireSteps as of_retire;
ghost use Rattle.rt_repair.specs.Setting.{repair_write, retire_write, writes_after, entries_set};
ghost use Rattle.rt_repair.specs.Told.{IsLeft, repair_stepped, retire_stepped};

/// What a repair keeps of the list that it read decides as the list does, and what a retirement keeps too.
pub fn what_is_kept_decides_as_the_list()
    ensures repairs { (r : Repairing) (now : Moment) (nodes : List Listed) (ideal : Seen)
        → decision_at r now (last_node r.partition nodes) ideal
        ≡ decide nodes r.partition (entries_by ideal.node) now r.grace }
    ensures retires { (r : Retirement) (now : Moment) (nodes : List Listed) (ideal : Seen)
        → retiring_at r now (lowest_node r.partition nodes) ideal
        ≡ retire nodes r.partition (entries_by ideal.node) now r.keep }
{}

/// A repair sets the ideal state exactly where that adds entries of a segment that has none.
pub fn a_repair_sets_what_changes()
    ensures unchanged { (r : Repairing) (s : Sequence) (follows : Bool) (es : List IdealEntry)
        → has_entry es r.partition s ≡ false → goes_on es r.partition s.0 ≡ false → added_entries r s follows es ≡ es }
    ensures changed { (r : Repairing) (s : Sequence) (follows : Bool) (es : List IdealEntry)
        → 0 < length r.instances → has_entry es r.partition s ≡ false → goes_on es r.partition s.0 ≡ true
        → added_entries r s follows es ≡ es → ⊥ }
{}

/// Over a store that tells everything a step of a repair has one outcome, but that memory may run out, after which all is
/// as before.
pub fn a_told_repair_is_exact()
    ensures exact { (t u : Told) (r : Repairing) (now : Moment) (x : of_repair.Stepped)
        → of_repair.StepsAt (means t) (means u) r now x r.stage → IsLeft u x (repair_stepped t r now) }
    ensures out { (t u : Told) → of_repair.RanOut (means t) (means u) → u ≡ t }
{}

/// Over a store that tells everything a step of a retirement has one outcome, but that memory may run out, after which
/// all is as before.
pub fn a_told_retirement_is_exact()
    ensures { (t u : Told) (r : Retirement) (now : Moment) (x : of_retire.Stepped)
        → of_retire.StepsAt (means t) (means u) r now x r.stage → IsLeft u x (retire_stepped t r now) }
{}

/// Repairs of one partition that run alone and without faults settle after at most three that write, where the last
/// segment has entries, or consumes and is the next of its partition, and no later segment has any; each repair comes
/// once the grace of the last segment is over. Then the last segment consumes, one of its entries isn't OFFLINE, and
/// nothing is decided any more.
pub fn repairs_converge()
    ensures { (r : Repairing) (x : Standing) (l : Listed) → CanSettle r x l → SettlesIn r 3 x l }
{}

/// A repair that runs alone from its beginning, over a store that tells a lawful history and plans no fault, ends with its
/// third step. What stands of its partition then, with its versions, is what its decision makes of what stood: one write
/// came, or none did and the repair answered Nothing.
pub fn a_repair_alone_does_what_it_decides()
    ensures { (s : Starting) (t : Told) (p : Partition) (setup : Setup) (a b c : Moment) → IsSetup setup
        → IsLawfulHistory s t.writes → p.0 < s.partitions → t.faults.plan ≡ []
        → IsRepaired s t (repairs.beginning p setup) c (run_alone t (repairs.beginning p setup) a b c) }
{}

/// So repairs of one partition that run alone, each with its three steps over what the one before it left, settle as
/// what they decide does: after at most three that write, a repair finds nothing to do.
pub fn repairs_alone_converge()
    ensures { (s : Starting) (t : Told) (p : Partition) (setup : Setup) (l : Listed) → IsSetup setup
        → IsLawfulHistory s t.writes → p.0 < s.partitions → t.faults.plan ≡ []
        → CanSettle (repairs.beginning p setup) (standing_of t.writes p) l → SettlesAlone (repairs.beginning p setup) 3 t }
{}

/// The number of entries that a step is said to set is that of the entries of its write: there is none exactly where the
/// step sets no ideal state. Over a store that tells everything that write, or none, is what the step leaves.
pub fn what_a_step_sets_is_counted()
    ensures repairs { (r : Repairing) (now : Moment)
        → repairs.set_entries r now ≡ option_map (λ (es : List IdealEntry). length es) (entries_set (repair_write r now)) }
    ensures repair_writes { (t : Told) (r : Repairing) (now : Moment)
        → (repair_stepped t r now).told.writes ≡ writes_after t (repair_write r now) }
    ensures retires { (r : Retirement) (now : Moment)
        → retirements.set_entries r now ≡ option_map (λ (es : List IdealEntry). length es) (entries_set (retire_write r now)) }
    ensures retire_writes { (t : Told) (r : Retirement) (now : Moment)
        → (retire_stepped t r now).told.writes ≡ writes_after t (retire_write r now) }
{}

/// Where the store's callers are told apart, a step of a repair or of a retirement adds one write at most to its caller's
/// own, and none that makes a segment Done. Where memory runs out it adds none.
pub fn a_step_commits_nothing()
    ensures repairs { (old new : Meaning) (r : Repairing) (now : Moment) (x : of_repair.Stepped)
        → of_repair.StepsAt old new r now x r.stage → GainsUndone old.own new.own }
    ensures retires { (old new : Meaning) (r : Retirement) (now : Moment) (x : of_retire.Stepped)
        → of_retire.StepsAt old new r now x r.stage → GainsUndone old.own new.own }
    ensures out { (old new : Meaning) → of_repair.RanOut old new → new.own ≡ old.own }
{}

/// A repair and a retirement that begin remember nothing that their store's caller hasn't seen.
pub fn what_begins_is_ready()
    ensures repairs { (s : Starting) (seen : List Seen) (p : Partition) (setup : Setup) → IsSetup setup
        → IsLawfulHistory s seen → p.0 < s.partitions → IsRepair s seen (repairs.beginning p setup) }
    ensures retires { (s : Starting) (seen : List Seen) (p : Partition) (keep : ℕ) → IsAssigned s
        → IsLawfulHistory s seen → p.0 < s.partitions → IsRetire s seen (retirements.beginning p keep) }
{}
