//! Sets of rows.
ghost use Rattle.std.specs.Prelude.{◌≡◌, ◌<◌, Bool, true, false, List, length, map, not, replicate, IfOk, IfSome, IfNone, slice_set};
ghost use Rattle.rt_postings.specs.DocSet.{has_row, both, either, HasNoneFrom, IsNextFrom};

use crate::doc_words::{WORD, and_words, first_marked, not_words, or_words};
use std::alloc::{AllocError, Global};
use std::marker::Model;

/// A set of rows below a row count.
///
/// Each row has a bit, 64 rows a word; the bits past the row count are 0.
#[derive(Drop)]
pub struct DocSet {
    rows: u32,
    words: Vec<u64>,
}

impl Model for DocSet {
    ghost use Rattle.std.specs.Prelude.{◌≡◌, ◌+◌, ◌/◌, Bool, List, length};
    ghost use Rattle.rt_postings.specs.Words.{marks_of, NoneMarkedFrom};

    ghost Value = { List Bool };

    ghost view = { λ a. marks_of a.rows a.words.items };

    ghost invariant = { λ a. (length a.words.items ≡ (a.rows + 63) / 64) × NoneMarkedFrom a.words.items a.rows };
}

impl DocSet {
    /// No rows of so many.
    pub fn empty(alloc: Global, rows: u32) -> Result<Self, AllocError>
        ensures { IfOk result (λ set. set ≡ replicate rows false) }
    {
        let words = vec![in alloc; 0u64; rows.div_ceil(WORD) as usize]?;
        Ok(DocSet { rows, words })
    }

    /// How many rows there are, in the set or not.
    pub fn rows(&self) -> u32
        ensures { result ≡ length self.now }
    {
        self.rows
    }

    /// Adds a row.
    pub fn add(&mut self, row: u32)
        requires { row < length self.old }
        ensures { self.new ≡ slice_set self.old row true }
    {
        self.words[(row / WORD) as usize] |= 1 << (row % WORD);
    }

    /// Keeps the rows that another set has too.
    pub fn and(&mut self, other: &DocSet)
        requires { length self.old ≡ length other.now }
        ensures { self.new ≡ both self.old other.now }
    {
        and_words(&mut self.words, &other.words);
    }

    /// Adds the rows of another set.
    pub fn or(&mut self, other: &DocSet)
        requires { length self.old ≡ length other.now }
        ensures { self.new ≡ either self.old other.now }
    {
        or_words(&mut self.words, &other.words);
    }

    /// Has the rows that it had not, and no other.
    pub fn not(&mut self)
        ensures { self.new ≡ map not self.old }
    {
        not_words(&mut self.words, self.rows);
    }

    /// Whether a row is in the set; none past the row count is.
    pub fn has(&self, row: u32) -> bool
        ensures { result ≡ has_row self.now row }
    {
        row < self.rows && (self.words[(row / WORD) as usize] >> (row % WORD)) & 1 == 1
    }

    /// The first row of the set from a row on.
    pub fn next_from(&self, row: u32) -> Option<u32>
        ensures found { IfSome result (λ found. IsNextFrom self.now row found) }
        ensures none { IfNone result (HasNoneFrom self.now row) }
    {
        if row >= self.rows {
            return None;
        }
        let at = (row / WORD) as usize;
        let first = self.words[at] & (u64::MAX << (row % WORD));
        if first != 0 {
            return Some(row / WORD * WORD + first.trailing_zeros());
        }
        first_marked(&self.words, at + 1)
    }
}
