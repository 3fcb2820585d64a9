ghost use Rattle.std.specs.Prelude.{◌≡◌, IfOk};
ghost use Rattle.rt_model.specs.Values.{rank as rank_of, value_cmp};
ghost use Rattle.rt_agg.specs.Reading.{value_from};
ghost use Rattle.rt_agg.specs.ValueRef.{value_lent};

use crate::Scalar;
use rt_lists::Text;
use rt_schema::Value;
use std::alloc::{AllocError, Global};
use std::cmp::Ordering;

/// A value that is borrowed where it lies.
#[derive(Clone, Copy)]
pub enum ValueRef<'a> {
    Int(i32),
    Long(i64),
    Text(&'a str),
    Bool(bool),
    /// Milliseconds.
    Time(i64),
}

impl<'a> ValueRef<'a> {
    /// A value, borrowed.
    pub fn of(value: &'a Value) -> ValueRef<'a>
        ensures { value_lent result ≡ value.now }
    {
        match value {
            Value::Int(number) => ValueRef::Int(*number),
            Value::Long(number) => ValueRef::Long(*number),
            Value::Text(text) => ValueRef::Text(text.as_str()),
            Value::Bool(truth) => ValueRef::Bool(*truth),
            Value::Time(millis) => ValueRef::Time(*millis),
        }
    }

    /// A whole number as a value.
    pub fn of_scalar(scalar: Scalar) -> ValueRef<'a>
        ensures { value_lent result ≡ value_from scalar }
    {
        match scalar {
            Scalar::Int(number) => ValueRef::Int(number),
            Scalar::Long(number) => ValueRef::Long(number),
            Scalar::Time(millis) => ValueRef::Time(millis),
        }
    }

    /// A copy of the value. Fails only where memory is refused.
    pub fn copied(self, alloc: Global) -> Result<Value, AllocError>
        ensures { IfOk result (λ value. value ≡ value_lent self.entry) }
    {
        match self {
            ValueRef::Int(number) => Ok(Value::Int(number)),
            ValueRef::Long(number) => Ok(Value::Long(number)),
            ValueRef::Text(text) => Ok(Value::Text(Text::copied_from(alloc, text)?)),
            ValueRef::Bool(truth) => Ok(Value::Bool(truth)),
            ValueRef::Time(millis) => Ok(Value::Time(millis)),
        }
    }

    /// How two values stand: by the kind, then by the value.
    pub(crate) fn compare(self, other: ValueRef<'_>) -> Ordering
        ensures { result ≡ value_cmp (value_lent self.entry) (value_lent other.entry) }
    {
        match (self, other) {
            (ValueRef::Int(one), ValueRef::Int(other)) => one.cmp(&other),
            (ValueRef::Long(one), ValueRef::Long(other)) => one.cmp(&other),
            (ValueRef::Text(one), ValueRef::Text(other)) => one.as_bytes().cmp(other.as_bytes()),
            (ValueRef::Bool(one), ValueRef::Bool(other)) => one.cmp(&other),
            (ValueRef::Time(one), ValueRef::Time(other)) => one.cmp(&other),
            (one, other) => one.rank().cmp(&other.rank()),
        }
    }

    fn rank(self) -> u8
        ensures { result ≡ rank_of (value_lent self.entry) }
    {
        match self {
            ValueRef::Int(_) => 0,
            ValueRef::Long(_) => 1,
            ValueRef::Text(_) => 2,
            ValueRef::Bool(_) => 3,
            ValueRef::Time(_) => 4,
        }
    }
}
