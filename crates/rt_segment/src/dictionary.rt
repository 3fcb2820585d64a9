ghost use Rattle.std.specs.Prelude.{◌≡◌, ◌<◌, IfOk, Some, false, length, slice_get};
ghost use Rattle.std.specs.List.{flat_map};
ghost use Rattle.rt_segment.specs.Column.{kind_in, count_in, values_in, AreValues, IsDictionary};
ghost use Rattle.rt_segment.specs.Spelling.{capped, dictionary_bytes};

use crate::stored::Stored;
use rt_dict::Dict;
use rt_lists::Text;
use rt_schema::{Kind, Value};
use std::alloc::{AllocError, Global};

/// The distinct values of a column, ascending, by the kind of the column.
#[derive(Drop)]
pub enum Dictionary {
    Int(Dict<i32>),
    Long(Dict<i64>),
    Text(Dict<Text>),
    Bool(Dict<bool>),
    /// Milliseconds.
    Time(Dict<i64>),
}

impl Dictionary {
    /// The kind of the values.
    pub fn kind(&self) -> Kind
        ensures { result ≡ kind_in self.now }
    {
        match self {
            Dictionary::Int(_) => Kind::Int,
            Dictionary::Long(_) => Kind::Long,
            Dictionary::Text(_) => Kind::Text,
            Dictionary::Bool(_) => Kind::Bool,
            Dictionary::Time(_) => Kind::Time,
        }
    }

    /// How many values there are. Ids are below it.
    pub fn len(&self) -> u32
        ensures { result ≡ count_in self.now }
    {
        match self {
            Dictionary::Int(dict) => dict.len(),
            Dictionary::Long(dict) => dict.len(),
            Dictionary::Text(dict) => dict.len(),
            Dictionary::Bool(dict) => dict.len(),
            Dictionary::Time(dict) => dict.len(),
        }
    }

    /// The value with an id. Fails only where memory is refused.
    pub fn value(&self, alloc: Global, id: u32) -> Result<Value, AllocError>
        requires { id < count_in self.now }
        ensures { IfOk result (λ value. slice_get (values_in self.now) id ≡ Some value) }
    {
        match self {
            Dictionary::Int(dict) => Ok(Value::Int(*dict.value(id))),
            Dictionary::Long(dict) => Ok(Value::Long(*dict.value(id))),
            Dictionary::Text(dict) => Ok(Value::Text(dict.value(id).copy(alloc)?)),
            Dictionary::Bool(dict) => Ok(Value::Bool(*dict.value(id))),
            Dictionary::Time(dict) => Ok(Value::Time(*dict.value(id))),
        }
    }

    /// An equal dictionary of its own. Fails only where memory is refused.
    pub fn copy(&self, alloc: Global) -> Result<Self, AllocError>
        ensures { IfOk result (λ copy. copy ≡ self.now) }
    {
        match self {
            Dictionary::Int(dict) => Ok(Dictionary::Int(dict.copy(alloc)?)),
            Dictionary::Long(dict) => Ok(Dictionary::Long(dict.copy(alloc)?)),
            Dictionary::Text(dict) => Ok(Dictionary::Text(dict.copy(alloc)?)),
            Dictionary::Bool(dict) => Ok(Dictionary::Bool(dict.copy(alloc)?)),
            Dictionary::Time(dict) => Ok(Dictionary::Time(dict.copy(alloc)?)),
        }
    }

    /// How many bytes the values take in a file, without their extremes.
    #[tactic(auto, using(crate::proofs::Sizes::no_extremes))]
    pub(crate) fn size(&self) -> usize
        ensures size { result ≡ capped (length (dictionary_bytes false self.now)) }
        ensures values { IsDictionary self.now }
    {
        match self {
            Dictionary::Int(dict) => size_of(dict),
            Dictionary::Long(dict) => size_of(dict),
            Dictionary::Text(dict) => size_of(dict),
            Dictionary::Bool(dict) => size_of(dict),
            Dictionary::Time(dict) => size_of(dict),
        }
    }
}

// How many bytes the values take in a file.
fn size_of<K: Stored>(dict: &Dict<K>) -> usize
    ensures size { result ≡ capped (length (flat_map K.spelled dict.now)) }
    ensures values { AreValues K.below K.fits dict.now }
{
    let count = dict.len();
    let mut size = 0usize;
    for id in 0..count {
        size = size.saturating_add(dict.value(id).size());
    }
    size
}
