ghost use Rattle.std.specs.Prelude.{◌≡◌, ◌↔◌, ◌++◌, ◌∷◌, [], ℕ, List, None, Result, Ok};
ghost use Rattle.rt_base.specs.declared.numbers.Partition.{Partition};
ghost use Rattle.rt_lists.specs.Members.{IsFront};
ghost use Rattle.rt_model.specs.declared.node.Key.{Key};
ghost use Rattle.rt_model.specs.declared.node.Seen.{Seen};
ghost use Rattle.rt_model.specs.declared.node.Listed.{Listed};
ghost use Rattle.rt_lists.specs.Members.{Has};
ghost use Rattle.rt_model.specs.declared.setup.Setup.{Setup};
ghost use Rattle.rt_model.specs.Setup.{IsSetup};
ghost use Rattle.rt_model.specs.Starting.{Starting, IsAssigned};
ghost use Rattle.rt_model.specs.Lawful.{Write, IsLawful, IsLawfulHistory, TakesEffect, written_by};
ghost use Rattle.rt_store.specs.declared.refused.StoreRefused.{StoreRefused};
ghost use Rattle.rt_store.specs.Meaning.{Told, Meaning};
ghost use Rattle.rt_store.specs.Memory.{means};
ghost use Rattle.rt_store.specs.Answers.{reading, listing, refusal_of, answer_of, after_call};
ghost use Rattle.rt_store.specs.Contents.{starting_of};
ghost use Rattle.rt_store.specs.Calls.{Reads, Lists, Writes, WritesVersion, IsExact};
ghost use Rattle.rt_model.specs.Metadata.{listed_write};

/// A write call is refused by what stands exactly where it would not take effect.
pub fn refusals_are_of_no_effect()
    ensures { (h : List Seen) (call : Write) → (refusal_of h call ≡ None) ↔ TakesEffect h call }
{}

/// What a caller has seen stays seen, whichever call it makes and whatever that answers.
pub fn what_was_seen_stays_seen()
    ensures reads { (old new : Meaning) (k : Key) (result : Result Seen StoreRefused)
        → Reads old new k result → IsFront old.seen new.seen }
    ensures lists { (old new : Meaning) (p : Partition) (result : Result (List Listed) StoreRefused)
        → Lists old new p result → IsFront old.seen new.seen }
    ensures writes { (old new : Meaning) (call : Write) (result : Result (Unit {0}) StoreRefused)
        → Writes old new call result → IsFront old.seen new.seen }
    ensures writes_version { (old new : Meaning) (call : Write) (result : Result ℕ StoreRefused)
        → WritesVersion old new call result → IsFront old.seen new.seen }
{}

/// What a read or a list answers has been seen, as a write of its key.
pub fn answers_were_seen()
    ensures reads { (old new : Meaning) (k : Key) (w : Seen)
        → Reads old new k (Ok w) → Has new.seen w × (w.key ≡ k) }
    ensures lists { (old new : Meaning) (p : Partition) (ls : List Listed) (l : Listed)
        → Lists old new p (Ok ls) → Has ls l → Has new.seen (listed_write p l) }
{}

/// A write call that was answered took effect: its caller has then seen the writes that it stood on, and behind them
/// the call's own write, of which a call that answers a version answered it.
pub fn answered_writes_stand_last()
    ensures writes { (old new : Meaning) (call : Write) (done : Unit {0}) (c : Writes old new call (Ok done))
        → TakesEffect c.base call × (new.seen ≡ c.base ++ written_by c.base call ∷ []) }
    ensures writes_version { (old new : Meaning) (call : Write) (version : ℕ) (c : WritesVersion old new call (Ok version))
        → TakesEffect c.base call × (new.seen ≡ c.base ++ written_by c.base call ∷ [])
        × (version ≡ (written_by c.base call).version) }
{}

/// Where a caller has seen a lawful history, each call keeps it so: reads and lists, and writes that are lawful over
/// what the caller has seen.
pub fn lawful_calls_keep_the_history_lawful()
    ensures reads { (s : Starting) (old new : Meaning) (k : Key) (result : Result Seen StoreRefused)
        → IsLawfulHistory s old.seen → Reads old new k result → IsLawfulHistory s new.seen }
    ensures lists { (s : Starting) (old new : Meaning) (p : Partition) (result : Result (List Listed) StoreRefused)
        → IsLawfulHistory s old.seen → Lists old new p result → IsLawfulHistory s new.seen }
    ensures writes { (s : Starting) (old new : Meaning) (call : Write) (result : Result (Unit {0}) StoreRefused)
        → IsLawfulHistory s old.seen → IsLawful old.seen call → Writes old new call result → IsLawfulHistory s new.seen }
    ensures writes_version { (s : Starting) (old new : Meaning) (call : Write) (result : Result ℕ StoreRefused)
        → IsLawfulHistory s old.seen → IsLawful old.seen call → WritesVersion old new call result
        → IsLawfulHistory s new.seen }
{}

/// A call of the store in memory has one answer, and leaves one list of writes and of planned faults, but that memory
/// may run out, after which all is as before.
pub fn calls_of_a_told_store_are_exact()
    ensures reads { (t new : Told) (k : Key) (result : Result Seen StoreRefused)
        → Reads (means t) (means new) k result → IsExact t new (reading k) (λ base. base) result }
    ensures lists { (t new : Told) (p : Partition) (result : Result (List Listed) StoreRefused)
        → Lists (means t) (means new) p result → IsExact t new (listing p) (λ base. base) result }
    ensures writes { (t new : Told) (call : Write) (result : Result (Unit {0}) StoreRefused)
        → Writes (means t) (means new) call result
        → IsExact t new (answer_of (λ w. tt) call) (after_call call) result }
    ensures writes_version { (t new : Told) (call : Write) (result : Result ℕ StoreRefused)
        → WritesVersion (means t) (means new) call result
        → IsExact t new (answer_of (λ w. w.version) call) (after_call call) result }
{}

/// A history has one beginning: what is lawful from some starting contents, and begins with a list that is lawful from
/// others, is lawful from those too.
pub fn a_history_has_one_beginning()
    ensures { (s t : Starting) (h more : List Seen)
        → IsLawfulHistory s h → IsLawfulHistory t (h ++ more) → IsLawfulHistory s (h ++ more) }
{}

/// A cluster within the limits starts with each partition on some servers, all distinct, so that the laws of
/// histories which ask for that hold of its store.
pub fn a_cluster_starts_assigned()
    ensures { (setup : Setup) → IsSetup setup → IsAssigned (starting_of setup) }
{}
