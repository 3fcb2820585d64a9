//! The dictionary of a column, and its least and greatest value.
ghost use Rattle.std.specs.Prelude.{◌≡◌, IfOk, None, Some, length};
ghost use Rattle.rt_segment.specs.Column.{count_in};
ghost use Rattle.rt_segment.specs.Cursor.{Gives};
ghost use Rattle.rt_segment.specs.Reading.{values_at, again_at, extremes_at, dictionary_of, dictionary_at};

use crate::cursor::Cursor;
use crate::dictionary::Dictionary;
use crate::segment_refused::SegmentRefused;
use crate::stored::Stored;
use rt_dict::Dict;
use rt_schema::Kind;
use std::alloc::Global;

/// A dictionary of so many values, and behind it its extremes, where the file has them.
#[tactic(auto, unfolding(crate::specs::Reading::dictionary_at))]
pub(crate) fn read_dictionary(
    alloc: Global,
    kind: Kind,
    extremes: bool,
    count: u32,
    cursor: &mut Cursor<'_>,
) -> Result<Dictionary, SegmentRefused>
    ensures read { Gives (λ d. d) result cursor.new (dictionary_at kind extremes count cursor.old) }
    ensures count { IfOk result (λ d. count_in d ≡ count) }
{
    match kind {
        Kind::Int => Ok(Dictionary::Int(read_of(alloc, extremes, count, cursor)?)),
        Kind::Long => Ok(Dictionary::Long(read_of(alloc, extremes, count, cursor)?)),
        Kind::Text => Ok(Dictionary::Text(read_of(alloc, extremes, count, cursor)?)),
        Kind::Bool => Ok(Dictionary::Bool(read_of(alloc, extremes, count, cursor)?)),
        Kind::Time => Ok(Dictionary::Time(read_of(alloc, extremes, count, cursor)?)),
    }
}

#[tactic(auto, unfolding(crate::specs::Reading::dictionary_of))]
fn read_of<K: Stored>(
    alloc: Global,
    extremes: bool,
    count: u32,
    cursor: &mut Cursor<'_>,
) -> Result<Dict<K>, SegmentRefused>
    ensures read { Gives (λ d. d) result cursor.new (dictionary_of K.below K.at extremes count cursor.old) }
    ensures count { IfOk result (λ d. length d ≡ count) }
{
    let dict = read_values(alloc, count, cursor)?;
    if extremes {
        read_extremes(alloc, &dict, cursor)?;
    }
    Ok(dict)
}

// So many values, each past the one before.
fn read_values<K: Stored>(
    alloc: Global,
    count: u32,
    cursor: &mut Cursor<'_>,
) -> Result<Dict<K>, SegmentRefused>
    ensures read { Gives (λ d. d) result cursor.new (values_at K.below K.at count None cursor.old) }
    ensures count { IfOk result (λ d. length d ≡ count) }
{
    let mut dict = Dict::empty(alloc);
    for _value in 0..count {
        let wrong = cursor.breach();
        let value = K::read(alloc, cursor)?;
        if !dict.push(value)? {
            return Err(wrong);
        }
    }
    Ok(dict)
}

// The first and the last value once more.
#[tactic(auto, unfolding(crate::specs::Reading::extremes_at, crate::specs::Reading::again_at))]
fn read_extremes<K: Stored>(
    alloc: Global,
    dict: &Dict<K>,
    cursor: &mut Cursor<'_>,
) -> Result<(), SegmentRefused>
    ensures { Gives (λ u. u) result cursor.new (extremes_at K.below K.at dict.now cursor.old) }
{
    let count = dict.len();
    if count > 0 {
        read_again(alloc, dict.value(0), cursor)?;
        read_again(alloc, dict.value(count - 1), cursor)?;
    }
    Ok(())
}

#[tactic(auto, unfolding(crate::specs::Reading::again_at))]
fn read_again<K: Stored>(
    alloc: Global,
    value: &K,
    cursor: &mut Cursor<'_>,
) -> Result<(), SegmentRefused>
    ensures { Gives (λ u. u) result cursor.new (again_at K.below K.at (Some value.now) cursor.old) }
{
    let wrong = cursor.breach();
    let again = K::read(alloc, cursor)?;
    if value.below(&again) || again.below(value) {
        return Err(wrong);
    }
    Ok(())
}
