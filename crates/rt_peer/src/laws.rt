//! What a fetch comes to for its caller, over the definitions alone.
ghost use Rattle.std.specs.Prelude.{◌≡◌, ◌<◌, ℕ, List, Some, Ok, Err, slice_get};
ghost use Rattle.rt_base.specs.declared.header.Header.{Header};
ghost use Rattle.rt_model.specs.declared.setup.Setup.{Setup};
ghost use Rattle.rt_segment.specs.Spelling.{file_of as bytes_of, header_of};
ghost use Rattle.rt_deep.specs.Files.{file_of};
ghost use Rattle.rt_deep.specs.Meaning.{Told, Meaning as DeepMeaning};
ghost use Rattle.rt_deep.specs.Memory.{means};
ghost use Rattle.rt_peer.specs.declared.got.Got.{Got};
ghost use Rattle.rt_peer.specs.declared.peer_refused.PeerRefused.{PeerRefused};
ghost use Rattle.rt_peer.specs.declared.peer_refused.PeerRefused.TheVariants.{Faulted, Memory, Nowhere};
ghost use Rattle.rt_peer.specs.Counts.{Rose};
ghost use Rattle.rt_peer.specs.Fetching.{Fetches};
ghost use Rattle.rt_peer.specs.Files.{IsWanted};
ghost use Rattle.rt_peer.specs.Meaning.{Meaning};
ghost use Rattle.rt_peer.specs.RightPeer.{IsBuilt, IsHeld, IsRightPeer};

/// What is fetched has the partition, the sequence, the range, the number of rows and the digest that were wanted.
pub fn what_is_fetched_has_its_header()
    ensures { (wanted : Header) (path : List ℕ) (before after : DeepMeaning) (olds news : List Meaning) (got : Got)
        → Fetches wanted path before after olds news (Ok got) → header_of got.sealed ≡ wanted }
{}

/// From a right peer comes the one file that is right of the range, by the same settings and in the same format: so the
/// deep store's file, wherever such a one stands there.
pub fn a_right_peers_file_is_the_one_file()
    ensures { (setup : Setup) (messages : List (List ℕ)) (wanted : Header) (path : List ℕ) (before after : DeepMeaning)
        (olds news : List Meaning) (got : Got) (place : ℕ) (peer : Meaning) (file : List ℕ)
        → Fetches wanted path before after olds news (Ok got) → got.from ≡ Some place → slice_get olds place ≡ Some peer
        → IsRightPeer setup messages wanted peer → IsBuilt setup messages wanted file → bytes_of got.sealed ≡ file }
{}

/// Where the deep store has the wanted file, as far as its caller has seen or as it tells, a fetch is refused only for a
/// fault of the deep store or for want of memory.
pub fn no_fetch_passes_the_deep_stores_file()
    ensures seen { (wanted : Header) (path file : List ℕ) (before after : DeepMeaning) (olds news : List Meaning) (refused : PeerRefused)
        → Fetches wanted path before after olds news (Err refused) → (refused ≡ Memory → ⊥)
        → file_of before.seen path ≡ Some (record { path = path; bytes = file }) → IsWanted wanted file → before.faults < after.faults }
    ensures told { (wanted : Header) (path file : List ℕ) (told : Told) (before after : DeepMeaning) (olds news : List Meaning) (refused : PeerRefused)
        → Fetches wanted path before after olds news (Err refused) → (refused ≡ Memory → ⊥)
        → before.told ≡ Some told → file_of told.files path ≡ Some (record { path = path; bytes = file }) → IsWanted wanted file
        → before.faults < after.faults }
{}

/// Where a peer is told to hold the wanted file, and so where a right peer holds the segment, a fetch is refused only for
/// a fault of that peer or for want of memory.
pub fn no_fetch_passes_a_right_peer()
    ensures holds { (wanted : Header) (path file : List ℕ) (before after : DeepMeaning) (olds news : List Meaning) (refused : PeerRefused)
        (place : ℕ) (old new : Meaning) → Fetches wanted path before after olds news (Err refused) → (refused ≡ Memory → ⊥)
        → slice_get olds place ≡ Some old → slice_get news place ≡ Some new
        → IsHeld old.told wanted file → IsWanted wanted file → old.faults < new.faults }
    ensures right { (setup : Setup) (messages : List (List ℕ)) (wanted : Header) (path file : List ℕ) (before after : DeepMeaning)
        (olds news : List Meaning) (refused : PeerRefused) (place : ℕ) (old new : Meaning)
        → Fetches wanted path before after olds news (Err refused) → (refused ≡ Memory → ⊥)
        → slice_get olds place ≡ Some old → slice_get news place ≡ Some new
        → IsRightPeer setup messages wanted old → IsHeld old.told wanted file → old.faults < new.faults }
{}

/// Faulted tells that a count rose in the call, and Nowhere that none did: each peer means what it meant before, and so
/// does a deep store in memory.
pub fn a_refusal_tells_of_each_count()
    ensures faulted { (wanted : Header) (path : List ℕ) (before after : DeepMeaning) (olds news : List Meaning)
        → Fetches wanted path before after olds news (Err Faulted) → Rose before after olds news }
    ensures nowhere { (wanted : Header) (path : List ℕ) (before after : DeepMeaning) (olds news : List Meaning)
        → Fetches wanted path before after olds news (Err Nowhere) → news ≡ olds }
    ensures memory { (wanted : Header) (path : List ℕ) (before after : Told) (olds news : List Meaning)
        → Fetches wanted path (means before) (means after) olds news (Err Nowhere) → after ≡ before }
{}
