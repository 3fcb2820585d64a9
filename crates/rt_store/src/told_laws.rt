ghost use Rattle.std.specs.Prelude.{◌≡◌, ◌<◌, ℕ, List, Some, Ok, Err};
ghost use Rattle.rt_base.specs.declared.numbers.Partition.{Partition};
ghost use Rattle.rt_lists.specs.Members.{Has, IsFront};
ghost use Rattle.rt_model.specs.declared.node.Key.{Key};
ghost use Rattle.rt_model.specs.declared.node.Seen.{Seen};
ghost use Rattle.rt_model.specs.declared.node.Listed.{Listed};
ghost use Rattle.rt_model.specs.History.{value_of};
ghost use Rattle.rt_model.specs.Metadata.{metadata_of};
ghost use Rattle.rt_model.specs.Starting.{Starting};
ghost use Rattle.rt_model.specs.Lawful.{Write, IsLawful, IsLawfulHistory};
ghost use Rattle.rt_store.specs.declared.refused.StoreRefused.{StoreRefused};
ghost use Rattle.rt_store.specs.declared.refused.StoreRefused.TheVariants.{Failed};
ghost use Rattle.rt_store.specs.Meaning.{Told, Meaning};
ghost use Rattle.rt_store.specs.Memory.{means};
ghost use Rattle.rt_store.specs.Answers.{reading, listing, answer_of, after_call, Leaves};
ghost use Rattle.rt_store.specs.Calls.{Reads, Lists, Writes, WritesVersion, answer_on, told_on};
ghost use Rattle.rt_model.specs.Metadata.{listed_write};
ghost use Rattle.rt_store.specs.Outcome.{Wrote};

/// Whatever fault it meets, a write call of a told store leaves the writes that it found, or these and its own write,
/// where it isn't refused; a lawful one keeps a lawful history lawful. A read or a list leaves the writes that it found.
pub fn what_told_calls_leave()
    ensures leaves { (t : Told) (call : Write) → Leaves call t.writes (told_on t (after_call call)).writes }
    ensures grows { (t : Told) (call : Write) → IsFront t.writes (told_on t (after_call call)).writes }
    ensures lawful { (s : Starting) (t : Told) (call : Write) → IsLawfulHistory s t.writes → IsLawful t.writes call
        → IsLawfulHistory s (told_on t (after_call call)).writes }
    ensures reads { (t : Told) → (told_on t (λ base. base)).writes ≡ t.writes }
{}

/// A write call that a told store answered took effect: the writes grew by that very write, and its version was
/// answered. What was read is a write of the history, and the value of its key; what was listed is the partition's
/// metadata list, each node of it a write of the history.
pub fn what_told_answers_show()
    ensures writes { (t : Told) (call : Write) (done : Unit {0}) → answer_on t (answer_of (λ w. tt) call) ≡ Ok done
        → Wrote t call (λ w. tt) done }
    ensures writes_version { (t : Told) (call : Write) (version : ℕ)
        → answer_on t (answer_of (λ w. w.version) call) ≡ Ok version → Wrote t call (λ w. w.version) version }
    ensures reads { (t : Told) (k : Key) (w : Seen) → answer_on t (reading k) ≡ Ok w
        → Has t.writes w × (w.key ≡ k) × (value_of t.writes k ≡ Some w) }
    ensures lists { (t : Told) (p : Partition) (ls : List Listed) → answer_on t (listing p) ≡ Ok ls
        → ls ≡ metadata_of t.writes p }
    ensures listed { (t : Told) (p : Partition) (ls : List Listed) (l : Listed) → answer_on t (listing p) ≡ Ok ls
        → Has ls l → Has t.writes (listed_write p l) }
{}

/// `Failed` is answered only where the count of faults rose.
pub fn a_fault_raises_the_count()
    ensures reads { (old new : Meaning) (k : Key) → Reads old new k (Err Failed) → old.faults < new.faults }
    ensures lists { (old new : Meaning) (p : Partition) → Lists old new p (Err Failed) → old.faults < new.faults }
    ensures writes { (old new : Meaning) (call : Write) → Writes old new call (Err Failed) → old.faults < new.faults }
    ensures writes_version { (old new : Meaning) (call : Write) → WritesVersion old new call (Err Failed)
        → old.faults < new.faults }
{}

/// A write call that is refused in another way writes nothing: its caller has then seen the writes that it stood on, and
/// where the store tells all its writes, these are what they were.
pub fn a_refusal_writes_nothing()
    ensures writes { (old new : Meaning) (call : Write) (refused : StoreRefused) (c : Writes old new call (Err refused))
        → (refused ≡ Failed → ⊥) → new.seen ≡ c.base }
    ensures writes_version { (old new : Meaning) (call : Write) (refused : StoreRefused)
        (c : WritesVersion old new call (Err refused)) → (refused ≡ Failed → ⊥) → new.seen ≡ c.base }
    ensures told { (t new : Told) (call : Write) (refused : StoreRefused)
        → Writes (means t) (means new) call (Err refused) → (refused ≡ Failed → ⊥) → new.writes ≡ t.writes }
    ensures told_version { (t new : Told) (call : Write) (refused : StoreRefused)
        → WritesVersion (means t) (means new) call (Err refused) → (refused ≡ Failed → ⊥) → new.writes ≡ t.writes }
{}
