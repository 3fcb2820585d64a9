ghost use Rattle.std.specs.Prelude.{◌≡◌, IfOk};
ghost use Rattle.rt_schema.specs.Value.{missing_of};

use crate::Value;
use rt_lists::Text;
use std::alloc::{AllocError, Global};

/// The kind of a column's values.
#[derive(Clone, Copy, Debug, PartialEq, Eq)]
pub enum Kind {
    /// INT: a whole number of 32 bits.
    Int,
    /// LONG: a whole number of 64 bits.
    Long,
    /// STRING.
    Text,
    /// BOOLEAN.
    Bool,
    /// TIMESTAMP: milliseconds as a whole number of 64 bits.
    Time,
}

/// The part that a column plays in its schema.
#[derive(Clone, Copy, Debug, PartialEq, Eq)]
pub enum Role {
    /// A column of `dimensionFieldSpecs`.
    Dimension,
    /// A column of `metricFieldSpecs`.
    Metric,
    /// A column of `dateTimeFieldSpecs`.
    Moment,
}

/// A column: its name, the kind of its values and its role.
#[derive(Drop, PartialEq, Eq)]
pub struct Column {
    pub name: Text,
    pub kind: Kind,
    pub role: Role,
}

impl Column {
    /// The column's value in a row that lacks it: Pinot's default of its kind and role. Fails only
    /// where memory is refused.
    pub fn missing(&self, alloc: Global) -> Result<Value, AllocError>
        ensures { IfOk result (λ value. value ≡ missing_of self.now.kind self.now.role) }
    {
        match (self.kind, self.role) {
            (Kind::Int, Role::Metric) => Ok(Value::Int(0)),
            (Kind::Int, _) => Ok(Value::Int(i32::MIN)),
            (Kind::Long, Role::Metric) => Ok(Value::Long(0)),
            (Kind::Long, _) => Ok(Value::Long(i64::MIN)),
            (Kind::Text, _) => Ok(Value::Text(Text::copied_from(alloc, "null")?)),
            (Kind::Bool, _) => Ok(Value::Bool(false)),
            (Kind::Time, _) => Ok(Value::Time(0)),
        }
    }
}
