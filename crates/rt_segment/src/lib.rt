//! Sealed segments and their files.
//!
//! A sealed segment is a format, a header and a table of columns: each column has its distinct values in ascending
//! order, and for each row the place of its value among them. [`encode`] writes the one file of a segment, and
//! [`decode`] gives the segment that bytes are the file of, or the first fault in them.
//!
//! All numbers of a file are big-endian. It begins with `PNRTSEG1` or `PNRTSEG2` by its format, then come partition
//! (4 bytes), sequence (4), start (8), end (8), row count (4) and column count (2); then the columns, and at last the
//! SHA-256 of all that stands before it. A column is its name with its length (2 bytes) in front, its kind (1: INT 1,
//! LONG 2, STRING 3, BOOLEAN 4, TIMESTAMP 5), a flag (1) that says whether it has postings, the number of its distinct
//! values (4), these values, in format 2 and in a file with rows the least and the greatest of them once more, the ids of
//! all rows in as few bits as they need, and where flagged for each id the number of its rows (4) and the rows (4 each).
#![tactic(auto)]

mod body_reader;
mod body_writer;
mod column_reader;
mod column_writer;
mod cursor;
mod decoder;
mod dictionary;
mod dictionary_reader;
mod dictionary_writer;
mod encoder;
mod header_reader;
mod ids_reader;
mod laws;
mod postings_reader;
mod postings_writer;
mod sealed;
mod segment_column;
mod segment_refused;
mod stored;
mod table;
mod texts;

pub use decoder::decode;
pub use dictionary::Dictionary;
pub use encoder::encode;
pub use laws::{
    a_column_is_its_values, a_cut_file_is_truncated, a_file_is_read_as_its_segment,
    nothing_is_wrong_before_a_breach, what_is_read_is_its_file,
};
pub use sealed::Sealed;
pub use segment_column::SegmentColumn;
pub use segment_refused::SegmentRefused;
