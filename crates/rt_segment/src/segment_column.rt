ghost use Rattle.std.specs.Prelude.{◌≡◌, ◌<◌, ◌^◌, ◌+◌, ◌++◌, ℕ, All, Contains, IfOk, IfSome, IfNone, OnOk, Some, None, true, false, length};
ghost use Rattle.std.specs.Option.{is_some};
ghost use Rattle.rt_postings.specs.Postings.{postings_of, rows_of};
ghost use Rattle.rt_segment.specs.Segment.{is_column};
ghost use Rattle.rt_segment.specs.Column.{SealedColumn, kind_in, count_in, IsColumn};
ghost use Rattle.rt_segment.specs.Cursor.{Gives};
ghost use Rattle.rt_segment.specs.Reading.{postings_at};
ghost use Rattle.rt_segment.specs.Spelling.{capped, dictionary_bytes, postings_bytes};

use crate::cursor::Cursor;
use crate::dictionary::Dictionary;
use crate::postings_reader::check_postings;
use crate::postings_writer::write_postings;
use crate::segment_refused::SegmentRefused;
use crate::table::is_column;
use rt_lists::{Items, Text};
use rt_postings::Postings;
use rt_schema::{Column, Kind};
use std::alloc::{AllocError, Global};
use std::marker::Model;

/// A column of a sealed segment: its name, its distinct values, and for each row the place of its value among them.
///
/// An indexed column has for each value the rows that have it.
#[derive(Drop)]
pub struct SegmentColumn {
    name: Text,
    dictionary: Dictionary,
    ids: Items<u32>,
    postings: Option<Postings>,
    // How many bytes the values take in a file, without their extremes.
    size: usize,
}

impl Model for SegmentColumn {
    ghost use Rattle.std.specs.Prelude.{◌≡◌, IfSome, false, length};
    ghost use Rattle.std.specs.Option.{is_some};
    ghost use Rattle.rt_postings.specs.Postings.{postings_of};
    ghost use Rattle.rt_segment.specs.Column.{SealedColumn, count_in, IsColumn};
    ghost use Rattle.rt_segment.specs.Spelling.{capped, dictionary_bytes};

    ghost Value = { SealedColumn };

    ghost view = { λ a. record { name = a.name; dictionary = a.dictionary; ids = a.ids; indexed = is_some a.postings } };

    ghost invariant = { λ a. IsColumn (record { name = a.name; dictionary = a.dictionary; ids = a.ids; indexed = is_some a.postings })
        × IfSome a.postings (λ p. p ≡ postings_of a.ids (count_in a.dictionary))
        × (a.size ≡ capped (length (dictionary_bytes false a.dictionary))) };
}

impl SegmentColumn {
    /// The column of a name with so many rows as there are ids, each below the dictionary's count; each value is
    /// that of a row.
    pub fn make(
        alloc: Global,
        name: Text,
        dictionary: Dictionary,
        ids: Items<u32>,
        indexed: bool,
    ) -> Result<Self, AllocError>
        requires few { length ids < 2 ^ 32 }
        requires known { All (λ id. id < count_in dictionary) ids }
        requires used { (id : ℕ) → id < count_in dictionary → Contains ids id }
        ensures { IfOk result (λ column. column ≡ record { name = name; dictionary = dictionary; ids = ids; indexed = indexed }) }
    {
        let size = dictionary.size();
        let _name = name.as_str();
        let postings = postings_if(alloc, indexed, ids.as_slice(), dictionary.len())?;
        Ok(SegmentColumn {
            name,
            dictionary,
            ids,
            postings,
            size,
        })
    }

    /// The column's name.
    pub fn name(&self) -> &Text
        ensures { result.now ≡ self.now.name }
    {
        &self.name
    }

    /// The kind of the column's values.
    pub fn kind(&self) -> Kind
        ensures { result ≡ kind_in self.now.dictionary }
    {
        self.dictionary.kind()
    }

    /// Whether it is a schema's column, by name and kind.
    pub fn is_of(&self, column: &Column) -> bool
        ensures { result ≡ is_column self.now column.now }
    {
        is_column(self, column)
    }

    /// Whether the column has an inverted index.
    pub fn is_indexed(&self) -> bool
        ensures { result ≡ self.now.indexed }
    {
        self.postings.is_some()
    }

    /// The distinct values, ascending. An id is a value's place there.
    pub fn dictionary(&self) -> &Dictionary
        ensures { result.now ≡ self.now.dictionary }
    {
        &self.dictionary
    }

    /// The id of each row's value.
    pub fn ids(&self) -> &[u32]
        ensures ids { result.now ≡ self.now.ids }
        ensures column { IsColumn self.now }
    {
        self.ids.as_slice()
    }

    /// The rows that have the value of an id, ascending; None where the column has no inverted index.
    pub fn docs(&self, id: u32) -> Option<&[u32]>
        requires { id < count_in self.now.dictionary }
        ensures some { IfSome result (λ rows. (self.now.indexed ≡ true) × (rows.now ≡ rows_of self.now.ids id)) }
        ensures none { IfNone result (self.now.indexed ≡ false) }
    {
        match &self.postings {
            None => None,
            Some(postings) => Some(postings.docs(id)),
        }
    }

    /// An equal column of its own. Fails only where memory is refused.
    pub fn copy(&self, alloc: Global) -> Result<Self, AllocError>
        ensures { IfOk result (λ copy. copy ≡ self.now) }
    {
        let mut ids = Vec::new(alloc);
        ids.extend_from_slice(self.ids.as_slice())?;
        SegmentColumn::make(
            alloc,
            self.name.copy(alloc)?,
            self.dictionary.copy(alloc)?,
            Items::of(ids),
            self.is_indexed(),
        )
    }

    /// How many bytes the values take in a file, without their extremes.
    pub(crate) fn size(&self) -> usize
        ensures size { result ≡ capped (length (dictionary_bytes false self.now.dictionary)) }
        ensures column { IsColumn self.now }
    {
        self.size
    }

    /// Writes the postings at the end, where the column has them.
    pub(crate) fn write_postings(&self, out: &mut Vec<u8>) -> Result<(), AllocError>
        ensures { OnOk result (out.new.items ≡ out.old.items ++ postings_bytes self.now.indexed self.now.ids (count_in self.now.dictionary)) }
    {
        match &self.postings {
            None => Ok(()),
            Some(postings) => write_postings(postings, self.dictionary.len(), out),
        }
    }

    /// Reads the postings of a file, which are those of the ids.
    #[tactic(auto, unfolding(crate::specs::Reading::postings_at))]
    pub(crate) fn check_postings(&self, cursor: &mut Cursor<'_>) -> Result<(), SegmentRefused>
        ensures { Gives (λ u. u) result cursor.new (postings_at self.now.indexed self.now.ids (count_in self.now.dictionary) cursor.old) }
    {
        match &self.postings {
            None => Ok(()),
            Some(postings) => check_postings(postings, self.dictionary.len(), cursor),
        }
    }
}

// The rows of each id, where they are wanted.
fn postings_if(
    alloc: Global,
    indexed: bool,
    ids: &[u32],
    cardinality: u32,
) -> Result<Option<Postings>, AllocError>
    requires few { length ids.now < 2 ^ 32 }
    requires known { All (λ id. id < cardinality) ids.now }
    ensures indexed { IfOk result (λ postings. is_some postings ≡ indexed) }
    ensures postings { IfOk result (λ postings. IfSome postings (λ p. p ≡ postings_of ids.now cardinality)) }
{
    if indexed {
        Ok(Some(Postings::build(alloc, ids, cardinality)?))
    } else {
        Ok(None)
    }
}
