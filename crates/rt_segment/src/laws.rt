//! Laws of the file format, over all segments and all bytes.
ghost use Rattle.std.specs.Prelude.{◌≡◌, ℕ, ◌<◌, ◌⊎◌, ◌++◌, List, length, take, Ok, Err, slice_index};
ghost use Rattle.rt_segment.specs.Column.{SealedColumn, IsColumn, kind_in, values_of};
ghost use Rattle.rt_segment.specs.Segment.{SealedSegment, IsSealed};
ghost use Rattle.rt_segment.specs.Spelling.{file_of};
ghost use Rattle.rt_segment.specs.Reading.{read_file};
ghost use Rattle.rt_segment.specs.declared.segment_refused.SegmentRefused.TheVariants.{NotCanonical, Truncated};

/// What is spelled so is read: a segment's file is read as that segment.
#[tactic(auto, using(crate::proofs::FileLaws::spelled_read))]
pub fn a_file_is_read_as_its_segment()
    ensures { (segment : SealedSegment) → IsSealed segment → read_file (file_of segment) ≡ Ok segment }
{}

/// What is read is spelled so: bytes that are read as a segment are that segment's file.
pub fn what_is_read_is_its_file()
    ensures { (bytes : List ℕ) (segment : SealedSegment) → ((i : ℕ) → slice_index bytes i < 256) → read_file bytes ≡ Ok segment → IsSealed segment × (bytes ≡ file_of segment) }
{}

/// A column of values has one dictionary and one list of ids: two columns of one name, kind and flag with the same
/// value in each row are equal. So a header and a table have one file in each format.
#[tactic(auto, using(crate::proofs::OneTable::one_column))]
pub fn a_column_is_its_values()
    ensures { (a b : SealedColumn) → IsColumn a → IsColumn b → a.name ≡ b.name → kind_in a.dictionary ≡ kind_in b.dictionary → a.indexed ≡ b.indexed → values_of a ≡ values_of b → a ≡ b }
{}

/// Each proper front of a segment's file lacks bytes, and nothing else is wrong with it.
#[tactic(auto, using(crate::proofs::Cuts::cut_file))]
pub fn a_cut_file_is_truncated()
    ensures { (segment : SealedSegment) → IsSealed segment → (front rest : List ℕ) → front ++ rest ≡ file_of segment → 0 < length rest → read_file front ≡ Err Truncated }
{}

/// A breach lies within the bytes, and nothing is wrong before it: the bytes before its place lack others behind them, or
/// they are a file.
#[tactic(auto, using(crate::proofs::Cuts::breach_within, crate::proofs::Cuts::before_breach))]
pub fn nothing_is_wrong_before_a_breach()
    ensures within { (bytes : List ℕ) (place : ℕ) → read_file bytes ≡ Err (NotCanonical place) → place < length bytes }
    ensures before { (bytes : List ℕ) (place : ℕ) → read_file bytes ≡ Err (NotCanonical place) → (read_file (take place bytes) ≡ Err Truncated) ⊎ ((segment : SealedSegment) × (read_file (take place bytes) ≡ Ok segment)) }
{}
