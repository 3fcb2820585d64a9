ghost use Rattle.std.specs.Prelude.{◌≡◌, ◌<◌, ℕ, List, Some, None, Ok, Err};
ghost use Rattle.rt_lists.specs.Members.{IsFront};
ghost use Rattle.rt_deep.specs.declared.deep_put.DeepPut.{DeepPut};
ghost use Rattle.rt_deep.specs.declared.refused.DeepRefused.{DeepRefused};
ghost use Rattle.rt_deep.specs.declared.refused.DeepRefused.TheVariants.{Absent, Failed};
ghost use Rattle.rt_deep.specs.Meaning.{Told, Meaning};
ghost use Rattle.rt_deep.specs.Memory.{means};
ghost use Rattle.rt_deep.specs.Files.{file_of, AreOnce};
ghost use Rattle.rt_deep.specs.Answers.{getting, putting, after_put, Leaves};
ghost use Rattle.rt_deep.specs.Calls.{Gets, PutsFile, answer_on, told_on};

/// Whatever fault it meets, a put of a told deep store leaves the files that it found, or these and its own file, where
/// nothing stood at its path; so files only grow, and a path has one of them still. A get leaves the files that it found.
pub fn what_told_calls_leave()
    ensures leaves { (t : Told) (put : DeepPut) → Leaves put t.files (told_on t (after_put put)).files }
    ensures grows { (t : Told) (put : DeepPut) → IsFront t.files (told_on t (after_put put)).files }
    ensures once { (t : Told) (put : DeepPut) → AreOnce t.files → AreOnce (told_on t (after_put put)).files }
    ensures gets { (t : Told) → (told_on t (λ base. base)).files ≡ t.files }
{}

/// A put that a told deep store answered stands, and so does a file that was got; where a get is refused by `Absent`,
/// nothing stands.
pub fn what_told_answers_show()
    ensures puts { (t : Told) (put : DeepPut) (done : Unit {0}) → answer_on t (putting put) ≡ Ok done
        → file_of (told_on t (after_put put)).files put.path ≡ Some put }
    ensures gets { (t : Told) (path bytes : List ℕ) → answer_on t (getting path) ≡ Ok bytes
        → file_of t.files path ≡ Some (record { path = path; bytes = bytes }) }
    ensures absent { (t : Told) (path : List ℕ) → answer_on t (getting path) ≡ Err Absent → file_of t.files path ≡ None }
{}

/// `Failed` is answered only where the count of faults rose.
pub fn a_fault_raises_the_count()
    ensures gets { (old new : Meaning) (path : List ℕ) → Gets old new path (Err Failed) → old.faults < new.faults }
    ensures puts { (old new : Meaning) (put : DeepPut) → PutsFile old new put (Err Failed) → old.faults < new.faults }
{}

/// A put that is refused in another way puts nothing: its caller has then seen the files that it stood on, and where the
/// deep store tells all its files, these are what they were.
pub fn a_refusal_puts_nothing()
    ensures puts { (old new : Meaning) (put : DeepPut) (refused : DeepRefused) (c : PutsFile old new put (Err refused))
        → (refused ≡ Failed → ⊥) → new.seen ≡ c.base }
    ensures told { (t new : Told) (put : DeepPut) (refused : DeepRefused)
        → PutsFile (means t) (means new) put (Err refused) → (refused ≡ Failed → ⊥) → new.files ≡ t.files }
{}
