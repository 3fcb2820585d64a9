//! The laws of what lasts of repairs and retirements. Each stands on a function that does nothing: its clause is the law.
ghost use Rattle.std.specs.Prelude.{◌≡◌, ◌<◌, ◌≤◌, ℕ, [], Some};
ghost use Rattle.rt_base.specs.declared.numbers.Moment.{Moment};
ghost use Rattle.rt_base.specs.declared.numbers.Partition.{Partition};
ghost use Rattle.rt_model.specs.declared.node.Listed.{Listed};
ghost use Rattle.rt_model.specs.declared.setup.Setup.{Setup};
ghost use Rattle.rt_model.specs.Metadata.{sequences_of};
ghost use Rattle.rt_model.specs.Setup.{IsSetup};
ghost use Rattle.rt_past.specs.IsPast.{IsPast, GrowsRight};
ghost use Rattle.rt_past.specs.Past.{Past, Grows};
ghost use Rattle.rt_store.specs.Contents.{starting_of};
ghost use Rattle.rt_store.specs.Meaning.{Told};
ghost use Rattle.rt_repair.specs.Alone.{SettlesAlone};
ghost use Rattle.rt_repair.specs.Converging.{CanSettle, standing_of};
ghost use Rattle.rt_repair.specs.IsRepair.{IsRepair};
ghost use Rattle.rt_repair.specs.IsRetire.{IsRetire};
ghost use Rattle.rt_repair.specs.Lasting.{IsRepairOver, IsRetireOver, told_past};
ghost use Rattle.rt_repair.specs.Repairing.{Repairing};
ghost use Rattle.rt_repair.specs.Repairing as repairs;
ghost use Rattle.rt_repair.specs.RepairSteps as of_repair;
ghost use Rattle.rt_repair.specs.Retirement.{Retirement};
ghost use Rattle.rt_repair.specs.Retirement as retirements;
ghost use Rattle.rt_repair.specs.RetireSteps as of_retire;
ghost use Rattle.rt_repair.specs.Told.{repair_stepped, retire_stepped};

/// What a repair and a retirement remember lasts as the past grows.
pub fn what_is_remembered_lasts()
    ensures repairs { (setup : Setup) (a b : Past) (r : Repairing) → Grows a b → IsRepairOver setup a r
        → IsRepairOver setup b r }
    ensures retires { (setup : Setup) (a b : Past) (r : Retirement) → Grows a b → IsRetireOver setup a r
        → IsRetireOver setup b r }
{}

/// A repair and a retirement that begin are right over any past, a retirement with the setup's retention.
pub fn what_begins_lasts()
    ensures repairs { (setup : Setup) (past : Past) (p : Partition) → p.0 < setup.partitions
        → IsRepairOver setup past (repairs.beginning p setup) }
    ensures retires { (setup : Setup) (past : Past) (p : Partition) (keep : ℕ) → p.0 < setup.partitions
        → Some keep ≡ setup.retention → IsRetireOver setup past (retirements.beginning p keep) }
{}

/// Over a right past they are ready to step.
pub fn what_lasts_is_ready()
    ensures repairs { (setup : Setup) (past : Past) (r : Repairing) → IsSetup setup → IsPast setup past
        → IsRepairOver setup past r → IsRepair (starting_of setup) past.history r }
    ensures retires { (setup : Setup) (past : Past) (r : Retirement) → IsSetup setup → IsPast setup past
        → IsRetireOver setup past r → IsRetire (starting_of setup) past.history r }
{}

/// A step over a store that tells everything writes what is lawful and right, whatever fault it meets, and leaves the repair
/// right over what was written then.
pub fn a_repair_keeps_the_past_right()
    ensures past { (setup : Setup) (past : Past) (t : Told) (r : Repairing) (now : Moment) → IsSetup setup
        → IsPast setup (told_past past t) → IsRepairOver setup (told_past past t) r
        → GrowsRight setup (told_past past t) (told_past past (repair_stepped t r now).told) }
    ensures repair { (setup : Setup) (past : Past) (t : Told) (r : Repairing) (now : Moment) (x : of_repair.Stepped) → IsSetup setup
        → IsPast setup (told_past past t) → IsRepairOver setup (told_past past t) r
        → (repair_stepped t r now).stepped ≡ Some x → IsRepairOver setup (told_past past (repair_stepped t r now).told) x.repair }
{}

/// So does a step of a retirement.
pub fn a_retirement_keeps_the_past_right()
    ensures past { (setup : Setup) (past : Past) (t : Told) (r : Retirement) (now : Moment) → IsSetup setup
        → IsPast setup (told_past past t) → IsRetireOver setup (told_past past t) r
        → GrowsRight setup (told_past past t) (told_past past (retire_stepped t r now).told) }
    ensures retire { (setup : Setup) (past : Past) (t : Told) (r : Retirement) (now : Moment) (x : of_retire.Stepped) → IsSetup setup
        → IsPast setup (told_past past t) → IsRetireOver setup (told_past past t) r
        → (retire_stepped t r now).stepped ≡ Some x → IsRetireOver setup (told_past past (retire_stepped t r now).told) x.retire }
{}

/// What a right past has of a partition of the setup is what repairs settle from, but that the last sequences of all are
/// left alone.
pub fn every_partition_can_settle()
    ensures { (setup : Setup) (past : Past) (r : Repairing) → IsSetup setup → IsPast setup past → IsRepairOver setup past r
        → sequences_of past.history r.partition ≤ 4294967290
        → (l : Listed) × CanSettle r (standing_of past.history r.partition) l }
{}

/// So repairs of a partition of the setup that run alone and without faults from a right past settle, after at most three
/// that write.
pub fn every_partition_settles_alone()
    ensures { (setup : Setup) (past : Past) (t : Told) (p : Partition) → IsSetup setup → IsPast setup (told_past past t)
        → p.0 < setup.partitions → sequences_of t.writes p ≤ 4294967290 → t.faults.plan ≡ []
        → SettlesAlone (repairs.beginning p setup) 3 t }
{}
