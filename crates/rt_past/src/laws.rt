//! The laws of a growing past. Each stands on a function that does nothing: its clause is the law.
ghost use Rattle.std.specs.Prelude.{◌≡◌, ◌+◌, ◌<◌, ◌^◌, ℕ, List, [], ◌∷◌, ◌++◌, length, Some};
ghost use Rattle.rt_base.specs.declared.numbers.Instance.{Instance};
ghost use Rattle.rt_base.specs.declared.numbers.Offset.{Offset};
ghost use Rattle.rt_base.specs.declared.numbers.Partition.{Partition};
ghost use Rattle.rt_base.specs.declared.numbers.Sequence.{Sequence};
ghost use Rattle.rt_lists.specs.Members.{Has, IsFront};
ghost use Rattle.rt_model.specs.declared.commit.Commit.{Commit};
ghost use Rattle.rt_model.specs.declared.ideal_state.IdealEntry.{IdealEntry};
ghost use Rattle.rt_model.specs.declared.node.Seen.{Seen};
ghost use Rattle.rt_model.specs.declared.reply.Reply.{Reply};
ghost use Rattle.rt_model.specs.declared.request.Request.{Request};
ghost use Rattle.rt_model.specs.declared.request.RequestKind.TheVariants as kind;
ghost use Rattle.rt_model.specs.declared.sent.Sent.{Sent};
ghost use Rattle.rt_model.specs.declared.sent.Sent.TheVariants as sent;
ghost use Rattle.rt_model.specs.declared.setup.Setup.{Setup};
ghost use Rattle.rt_model.specs.Ideal.{add_consuming_of, commit_step_of, remove_segment_of, set_offline_of};
ghost use Rattle.rt_model.specs.Lawful.{IsLawful, IsLawfulHistory, Write, written_by};
ghost use Rattle.rt_model.specs.Chain.{IsPresent, deletions_of};
ghost use Rattle.rt_model.specs.Entries.{HasEntry, entries_of};
ghost use Rattle.rt_model.specs.Metadata.{sequences_of};
ghost use Rattle.rt_model.specs.Setup.{IsSetup};
ghost use Rattle.rt_msgs.specs.Numbered.{Numbered, number_at};
ghost use Rattle.rt_assign.specs.Placement.{replicas_of};
ghost use Rattle.rt_stream.specs.Log.{Log};
ghost use Rattle.rt_stream.specs.Feed.{Grows as GrowsLog};
ghost use Rattle.rt_deep.specs.declared.deep_put.DeepPut.{DeepPut};
ghost use Rattle.rt_deep.specs.Answers.{Leaves as LeavesFiles};
ghost use Rattle.rt_deep.specs.Files.{AreOnce, file_of};
ghost use Rattle.rt_store.specs.Answers.{Leaves};
ghost use Rattle.rt_store.specs.Contents.{starting_of};
ghost use Rattle.rt_past.specs.Past.{Past, Grows, with_files, with_history, with_log, with_reply, with_request};
ghost use Rattle.rt_past.specs.Files.{IsRightFile, IsStored};
ghost use Rattle.rt_past.specs.Requests.{AreDrawn, IsFresh, IsNamedByCreation, IsRequest};
ghost use Rattle.rt_past.specs.View.{IsNamed, IsSound, Within};
ghost use Rattle.rt_past.specs.Replies.{IsReply};
ghost use Rattle.rt_past.specs.Writes.{AreRightEntries, IsRightWrite};
ghost use Rattle.rt_past.specs.IsPast.{IsPast, IsRightUpload, IsUploaded, fresh_past};
ghost use Rattle.rt_past.specs.Reaching.{ReachesLast};

/// A past is a front of itself, and what has grown twice has grown.
pub fn growth_goes_on()
    ensures same { (a : Past) → Grows a a }
    ensures again { (a b c : Past) → Grows a b → Grows b c → Grows a c }
{}

/// A past that grew has all of the earlier one, and what lies within a view lies within whatever has
/// all of that view.
pub fn growth_keeps_all()
    ensures grows { (a b : Past) → Grows a b → Within a b }
    ensures again { (a b c : Past) → Within a b → Within b c → Within a c }
{}

/// A right request, reply, write or file is right of each past that has all of the one that it was
/// right of; so it stays right as the past grows.
pub fn what_is_right_stays_right()
    ensures requests { (setup : Setup) (a b : Past) (q : Request) → Within a b
        → IsRequest setup a q → IsRequest setup b q }
    ensures replies { (a b : Past) (r : Reply) → Within a b → IsReply a r → IsReply b r }
    ensures writes { (setup : Setup) (a b : Past) (w : Seen) → Within a b
        → IsRightWrite setup a w → IsRightWrite setup b w }
    ensures files { (setup : Setup) (a b : Past) (p : Partition) (s : Sequence) (start end : Offset)
        (bytes : List ℕ) → Within a b
        → IsRightFile setup a p s start end bytes → IsRightFile setup b p s start end bytes }
    ensures stored { (setup : Setup) (a b : Past) (p : Partition) (s : Sequence) (start : Offset)
        (commit : Commit) → Within a b
        → IsStored setup a p s start commit → IsStored setup b p s start commit }
    ensures named { (a b : Past) (p : Partition) (s : Sequence) (start : Offset) (commit : Commit)
        → Within a b → IsNamed a.files p s start commit → IsNamed b.files p s start commit }
{}

/// A right past is sound.
pub fn a_right_past_is_sound()
    ensures { (setup : Setup) (a : Past) → IsPast setup a → IsSound setup a }
{}

/// Where the file of a commit is stored, what stands at its path has the header that it names.
pub fn a_stored_file_is_named()
    ensures { (setup : Setup) (a : Past) (p : Partition) (s : Sequence) (start : Offset)
        (commit : Commit) → IsStored setup a p s start commit → IsNamed a.files p s start commit }
{}

/// The path of an upload has its segment's name: its table, its place, and the minute at which it
/// was created.
pub fn an_upload_has_its_segments_name()
    ensures { (setup : Setup) (a : Past) (q : Request) (path bytes : List ℕ) → IsPast setup a
        → Has a.sent (sent.Request q) → q.kind ≡ kind.Upload path bytes
        → IsNamedByCreation setup a.history q.partition q.sequence q.number path }
{}

/// A fresh cluster's past is right.
pub fn a_past_begins()
    ensures { (setup : Setup) → IsPast setup (fresh_past setup) }
{}

/// The stream may grow.
pub fn a_past_grows_by_messages()
    ensures { (setup : Setup) (a : Past) (log : Log) → GrowsLog a.log log → IsPast setup a
        → Grows a (with_log a log) × IsPast setup (with_log a log) }
{}

/// The store's history may grow to a lawful one whose writes are right.
pub fn a_past_grows_by_writes()
    ensures { (setup : Setup) (a : Past) (h : List Seen) → IsFront a.history h → IsLawfulHistory (starting_of setup) h
        → ((w : Seen) → Has h w → IsRightWrite setup (with_history a h) w) → IsPast setup a
        → Grows a (with_history a h) × IsPast setup (with_history a h) }
{}

/// So it does by one write call that is lawful and would write what is right, whether it takes effect or not.
pub fn a_past_grows_by_a_write_call()
    ensures { (setup : Setup) (a : Past) (call : Write) (now : List Seen) → Leaves call a.history now → IsLawful a.history call
        → IsRightWrite setup a (written_by a.history call) → IsPast setup a
        → Grows a (with_history a now) × IsPast setup (with_history a now) }
{}

/// The deep store may grow by files that were uploaded, each at a path of its own.
pub fn a_past_grows_by_files()
    ensures { (setup : Setup) (a : Past) (files : List DeepPut) → IsFront a.files files → AreOnce files
        → ((f : DeepPut) → Has files f → IsUploaded a.sent f) → IsPast setup a
        → Grows a (with_files a files) × IsPast setup (with_files a files) }
{}

/// So it does by one put of what was uploaded, whether it puts a file or not.
pub fn a_past_grows_by_a_put()
    ensures { (setup : Setup) (a : Past) (put : DeepPut) (now : List DeepPut) → LeavesFiles put a.files now → IsUploaded a.sent put
        → IsPast setup a → Grows a (with_files a now) × IsPast setup (with_files a now) }
{}

/// A right request with a fresh number may be sent.
pub fn a_past_grows_by_a_request()
    ensures { (setup : Setup) (a : Past) (q : Request) → IsRequest setup a q → IsFresh a.sent q.number → IsPast setup a
        → Grows a (with_request a q) × IsPast setup (with_request a q) }
{}

/// A right reply may be sent.
pub fn a_past_grows_by_a_reply()
    ensures { (setup : Setup) (a : Past) (r : Reply) → IsReply a r → IsPast setup a
        → Grows a (with_reply a r) × IsPast setup (with_reply a r) }
{}

/// The next number of an instance is fresh, and the numbers that were sent stay drawn: as it sends that number, as others
/// send theirs, and as it begins a later incarnation.
pub fn drawn_numbers_are_fresh()
    ensures fresh { (ms : List Sent) (n : Numbered) → AreDrawn ms n → IsFresh ms (number_at n n.made) }
    ensures next { (ms : List Sent) (n : Numbered) (q : Request) → AreDrawn ms n → q.number ≡ number_at n n.made
        → AreDrawn (ms ++ sent.Request q ∷ []) (record n { made = n.made + 1 }) }
    ensures other { (ms : List Sent) (n : Numbered) (q : Request) → AreDrawn ms n → (q.number.instance ≡ n.instance → ⊥)
        → AreDrawn (ms ++ sent.Request q ∷ []) n }
    ensures replies { (ms : List Sent) (n : Numbered) (r : Reply) → AreDrawn ms n → AreDrawn (ms ++ sent.Reply r ∷ []) n }
    ensures anew { (ms : List Sent) (n : Numbered) (later : ℕ) → AreDrawn ms n → n.incarnation < later
        → AreDrawn ms (record { instance = n.instance; incarnation = later; made = 0 }) }
{}

/// The steps of the ideal state keep its entries right.
pub fn ideal_steps_keep_entries_right()
    ensures commits { (setup : Setup) (es : List IdealEntry) (p : Partition) (s : Sequence) → p.0 < setup.partitions
        → AreRightEntries setup es → AreRightEntries setup (commit_step_of es p s (replicas_of p setup.table.replication setup.servers)) }
    ensures adds { (setup : Setup) (es : List IdealEntry) (p : Partition) (s : Sequence) → p.0 < setup.partitions
        → AreRightEntries setup es → AreRightEntries setup (add_consuming_of es p s (replicas_of p setup.table.replication setup.servers)) }
    ensures turns_offline { (setup : Setup) (es : List IdealEntry) (p : Partition) (s : Sequence) (i : Instance)
        → AreRightEntries setup es → AreRightEntries setup (set_offline_of es p s i) }
    ensures removes { (setup : Setup) (es : List IdealEntry) (p : Partition) (s : Sequence)
        → AreRightEntries setup es → AreRightEntries setup (remove_segment_of es p s) }
{}

/// Every file of the deep store is right: it has the stream's rows of its segment, up to the offset of the request that
/// uploaded it.
pub fn every_file_is_right()
    ensures { (setup : Setup) (a : Past) (f : DeepPut) → IsPast setup a → Has a.files f → IsRightUpload setup a f }
{}

/// A path is that of one upload, so that what stands there has the upload's bytes: no put of an upload finds others.
pub fn a_path_has_one_upload()
    ensures one { (setup : Setup) (a : Past) (q r : Request) (path bytes other : List ℕ) → IsSetup setup → length a.history < 2 ^ 64
        → IsPast setup a → Has a.sent (sent.Request q) → Has a.sent (sent.Request r)
        → q.kind ≡ kind.Upload path bytes → r.kind ≡ kind.Upload path other → q ≡ r }
    ensures bytes { (setup : Setup) (a : Past) (q : Request) (path bytes : List ℕ) (f : DeepPut) → IsSetup setup → length a.history < 2 ^ 64
        → IsPast setup a → Has a.sent (sent.Request q) → q.kind ≡ kind.Upload path bytes → file_of a.files path ≡ Some f
        → f.bytes ≡ bytes }
{}

/// The ideal state has an entry of each partition's last segment, or of the one before it while the last is in progress.
pub fn entries_reach_the_last_segment()
    ensures { (setup : Setup) (a : Past) (p : Partition) → IsSetup setup → IsPast setup a → p.0 < setup.partitions
        → ReachesLast a.history p }
{}

/// A segment that is present and isn't the last one, and that the ideal state has no entry of, is the lowest one.
pub fn a_segment_without_entries_is_the_lowest()
    ensures { (setup : Setup) (a : Past) (p : Partition) (q : ℕ) → IsSetup setup → IsPast setup a → p.0 < setup.partitions
        → IsPresent a.history p q → (HasEntry (entries_of a.history) p q → ⊥) → q + 1 < sequences_of a.history p
        → q ≡ deletions_of a.history p }
{}
