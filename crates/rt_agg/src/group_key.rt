ghost use Rattle.std.specs.Prelude.{◌≡◌, ◌<◌, ◌∷◌, [], length, slice_get, Some, IfOk};
ghost use Rattle.std.specs.Hash as fed;
ghost use Rattle.std.specs.List.{fold};
ghost use Rattle.rt_schema.specs.contracts.value.ValueHash.TheImpl as value;
ghost use Rattle.rt_schema.specs.declared.value.Value.TheVariants.{Text as AnyText};
ghost use Rattle.rt_model.specs.Values.{key_cmp};
ghost use Rattle.rt_agg.specs.GroupKey.{values_in};
ghost use Rattle.rt_agg.specs.ValueRef.{value_lent};

use crate::ValueRef;
use arrayvec::ArrayString;
use rt_lists::{Copied, Items, Text};
use rt_schema::Value;
use std::alloc::{AllocError, Global};
use std::cmp::Ordering;
use std::hash::{Hash, Hasher};
use std::marker::Model;
use std::slice;

/// The key of a group: its values in the columns of GROUP BY. One value, as most keys have, lies in the key itself and
/// takes no list; where it is a text of at most 24 bytes, the key takes no memory of its own at all.
#[derive(Drop)]
pub struct GroupKey {
    inside: Inside,
}

#[derive(Drop)]
enum Inside {
    Short(ArrayString<24>),
    One(Value),
    Several(Items<Value>),
}

impl Model for GroupKey {
    ghost use Rattle.std.specs.Prelude.{List};
    ghost use Rattle.rt_schema.specs.declared.value.Value.{Value as AnyValue};
    ghost use Rattle.rt_agg.specs.GroupKey.{values_in};

    ghost Value = { List AnyValue };

    ghost view = { λ k. values_in k.inside };
}

impl GroupKey {
    /// The key of one value, which is copied. Fails only where memory is refused.
    pub fn of_one(alloc: Global, value: ValueRef<'_>) -> Result<GroupKey, AllocError>
        ensures { IfOk result (λ key. key ≡ value_lent value.entry ∷ []) }
    {
        let inside = match value {
            ValueRef::Text(text) => text_inside(alloc, text)?,
            value => Inside::One(value.copied(alloc)?),
        };
        Ok(GroupKey { inside })
    }

    /// The key of a list of values.
    pub fn of(values: Items<Value>) -> GroupKey
        ensures { result ≡ values }
    {
        GroupKey {
            inside: Inside::Several(values),
        }
    }

    /// The number of values.
    pub fn len(&self) -> usize
        ensures { result ≡ length self.now }
    {
        match &self.inside {
            Inside::Short(_) => 1,
            Inside::One(_) => 1,
            Inside::Several(values) => values.len(),
        }
    }

    /// The value at a place.
    pub fn at(&self, place: usize) -> ValueRef<'_>
        requires { place < length self.now }
        ensures { slice_get self.now place ≡ Some (value_lent result) }
    {
        match &self.inside {
            Inside::Short(text) => ValueRef::Text(text.as_str()),
            Inside::One(value) => ValueRef::of(value),
            Inside::Several(values) => ValueRef::of(&values.as_slice()[place]),
        }
    }

    /// How two keys stand: the first value that differs decides.
    pub(crate) fn compare(&self, other: &GroupKey) -> Ordering
        ensures { result ≡ key_cmp self.now other.now }
    {
        for place in 0..self.len() {
            if other.len() <= place {
                return Ordering::Greater;
            }
            match self.at(place).compare(other.at(place)) {
                Ordering::Equal => (),
                unequal => return unequal,
            }
        }
        if self.len() < other.len() {
            Ordering::Less
        } else {
            Ordering::Equal
        }
    }
}

// A text in a key: a copy that lies in the key itself, where it is short.
fn text_inside(alloc: Global, text: &str) -> Result<Inside, AllocError>
    ensures { IfOk result (λ inside. values_in inside ≡ AnyText text.now ∷ []) }
{
    match ArrayString::from(text) {
        Ok(short) => Ok(Inside::Short(short)),
        Err(_) => Ok(Inside::One(Value::Text(Text::copied_from(alloc, text)?))),
    }
}

impl PartialEq for GroupKey {
    ghost use Rattle.std.specs.Cmp.{partial_equiv_from_equiv};
    ghost use Rattle.rt_agg.specs.GroupKey.{keys_equal, same_value};
    ghost use lib.Pointwise.{pointwise};

    ghost eq = { pointwise same_value };

    ghost laws = { partial_equiv_from_equiv keys_equal };

    fn eq(&self, other: &GroupKey) -> bool {
        match (&self.inside, &other.inside) {
            (Inside::Short(one), Inside::Short(other)) => one.as_str() == other.as_str(),
            _ => self.compare(other).is_eq(),
        }
    }
}

impl Eq for GroupKey {
    ghost use Rattle.rt_agg.specs.GroupKey.{keys_equal};

    ghost laws = { keys_equal };
}

impl Hash for GroupKey {
    ghost use Rattle.std.specs.Hash as fed;
    ghost use Rattle.std.specs.Hash.{items_Alike};
    ghost use Rattle.rt_schema.specs.contracts.value.ValueHash.TheImpl as value;
    ghost use Rattle.rt_schema.specs.contracts.value.ValueHash.TheImpl.Laws.{respects_eq-law};

    ghost hash_input = { fed.slice value.hash_input-value.it };

    ghost respects_eq = { (items_Alike (record { fed = respects_eq-law })).fed };

    fn hash<H: Hasher>(&self, state: &mut H) {
        match &self.inside {
            Inside::Short(text) => hash_text(text.as_str(), state),
            Inside::One(value) => slice::from_ref(value).hash(state),
            Inside::Several(values) => values.as_slice().hash(state),
        }
    }
}

// What a list of one text feeds: its length, the kind of the value, and the text.
fn hash_text<H: Hasher>(text: &str, state: &mut H)
    ensures { state.new ≡ fold H.write state.old (fed.slice value.hash_input-value.it (AnyText text.now ∷ [])) }
{
    1usize.hash(state);
    2isize.hash(state);
    text.hash(state);
}

impl Copied for GroupKey {
    fn copied(&self, alloc: Global) -> Result<Self, AllocError> {
        let inside = match &self.inside {
            Inside::Short(text) => Inside::Short(*text),
            Inside::One(value) => Inside::One(value.copied(alloc)?),
            Inside::Several(values) => Inside::Several(values.copied(alloc)?),
        };
        Ok(GroupKey { inside })
    }
}
