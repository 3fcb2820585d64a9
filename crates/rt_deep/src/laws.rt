ghost use Rattle.std.specs.Prelude.{◌≡◌, ℕ, List, Some, None, Result, Ok, Err};
ghost use Rattle.rt_lists.specs.Members.{IsFront};
ghost use Rattle.rt_deep.specs.declared.deep_put.DeepPut.{DeepPut};
ghost use Rattle.rt_deep.specs.declared.refused.DeepRefused.{DeepRefused};
ghost use Rattle.rt_deep.specs.declared.refused.DeepRefused.TheVariants.{Absent};
ghost use Rattle.rt_deep.specs.Meaning.{Told, Meaning};
ghost use Rattle.rt_deep.specs.Memory.{means};
ghost use Rattle.rt_deep.specs.Files.{file_of, AreOnce};
ghost use Rattle.rt_deep.specs.Answers.{getting, putting, after_put};
ghost use Rattle.rt_deep.specs.Calls.{Gets, Puts, PutsFile, IsExact};

/// What a caller has seen stays seen, whichever call it makes and whatever that answers.
pub fn what_was_seen_stays_seen()
    ensures gets { (old new : Meaning) (path : List ℕ) (result : Result (List ℕ) DeepRefused)
        → Gets old new path result → IsFront old.seen new.seen }
    ensures puts { (old new : Meaning) (path bytes : List ℕ) (result : Result (Unit {0}) DeepRefused)
        → Puts old new path bytes result → IsFront old.seen new.seen }
{}

/// A file that stands at a path stands there for ever, whatever is put later.
pub fn what_was_put_stays()
    ensures { (old new : List DeepPut) (path : List ℕ) (file : DeepPut)
        → IsFront old new → file_of old path ≡ Some file → file_of new path ≡ Some file }
{}

/// No path has two of the files that a caller has seen, after whichever call.
pub fn a_path_has_one_file()
    ensures gets { (old new : Meaning) (path : List ℕ) (result : Result (List ℕ) DeepRefused)
        → Gets old new path result → AreOnce new.seen }
    ensures puts { (old new : Meaning) (path bytes : List ℕ) (result : Result (Unit {0}) DeepRefused)
        → Puts old new path bytes result → AreOnce new.seen }
{}

/// What a get answers stands at its path, and so does what was put; where a get is refused by `Absent`, nothing does.
pub fn answers_were_seen()
    ensures gets { (old new : Meaning) (path bytes : List ℕ)
        → Gets old new path (Ok bytes) → file_of new.seen path ≡ Some (record { path = path; bytes = bytes }) }
    ensures absent { (old new : Meaning) (path : List ℕ)
        → Gets old new path (Err Absent) → file_of new.seen path ≡ None }
    ensures puts { (old new : Meaning) (path bytes : List ℕ)
        → Puts old new path bytes (Ok tt) → file_of new.seen path ≡ Some (record { path = path; bytes = bytes }) }
{}

/// A call of the deep store in memory has one answer, and leaves one list of files and of planned faults, but that
/// memory may run out, after which all is as before.
pub fn calls_of_a_told_deep_store_are_exact()
    ensures gets { (t new : Told) (path : List ℕ) (result : Result (List ℕ) DeepRefused)
        → Gets (means t) (means new) path result → IsExact t new (getting path) (λ base. base) result }
    ensures puts { (t new : Told) (put : DeepPut) (result : Result (Unit {0}) DeepRefused)
        → PutsFile (means t) (means new) put result → IsExact t new (putting put) (after_put put) result }
{}
