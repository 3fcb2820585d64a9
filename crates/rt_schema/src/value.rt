ghost use Rattle.std.specs.Prelude.{◌≡◌};
ghost use Rattle.rt_schema.specs.Value.{kind_of};

use crate::Kind;
use rt_lists::{Copied, Text};
use std::alloc::{AllocError, Global};

/// A value of a row.
#[derive(Drop, PartialEq, Eq, Hash)]
pub enum Value {
    Int(i32),
    Long(i64),
    Text(Text),
    Bool(bool),
    /// Milliseconds.
    Time(i64),
}

impl Value {
    /// The kind of the columns that hold such a value.
    pub fn kind(&self) -> Kind
        ensures { result ≡ kind_of self.now }
    {
        match self {
            Value::Int(_) => Kind::Int,
            Value::Long(_) => Kind::Long,
            Value::Text(_) => Kind::Text,
            Value::Bool(_) => Kind::Bool,
            Value::Time(_) => Kind::Time,
        }
    }
}

impl Copied for Value {
    fn copied(&self, alloc: Global) -> Result<Self, AllocError> {
        match self {
            Value::Int(number) => Ok(Value::Int(*number)),
            Value::Long(number) => Ok(Value::Long(*number)),
            Value::Text(text) => Ok(Value::Text(text.copy(alloc)?)),
            Value::Bool(truth) => Ok(Value::Bool(*truth)),
            Value::Time(millis) => Ok(Value::Time(*millis)),
        }
    }
}
