ghost use Rattle.std.specs.Prelude.{◌≡◌};
ghost use Rattle.rt_model.specs.Values.{number_of};
ghost use Rattle.rt_agg.specs.Reading.{scalar_of, value_from};

use rt_schema::Value;

/// A value that can be added up or ranked with no memory: a whole number of its kind.
#[derive(Clone, Copy, Debug, PartialEq, Eq)]
pub enum Scalar {
    Int(i32),
    Long(i64),
    /// Milliseconds.
    Time(i64),
}

impl Scalar {
    /// A value as a scalar; none where it is a text or a truth.
    pub fn of(value: &Value) -> Option<Scalar>
        ensures { result ≡ scalar_of value.now }
    {
        match value {
            Value::Int(number) => Some(Scalar::Int(*number)),
            Value::Long(number) => Some(Scalar::Long(*number)),
            Value::Text(_) => None,
            Value::Bool(_) => None,
            Value::Time(millis) => Some(Scalar::Time(*millis)),
        }
    }

    /// The value. It takes no memory.
    pub fn value(self) -> Value
        ensures { result ≡ value_from self }
    {
        match self {
            Scalar::Int(number) => Value::Int(number),
            Scalar::Long(number) => Value::Long(number),
            Scalar::Time(millis) => Value::Time(millis),
        }
    }

    /// The number, or the milliseconds.
    pub fn number(self) -> i64
        ensures { result ≡ number_of (value_from self) }
    {
        match self {
            Scalar::Int(number) => i64::from(number),
            Scalar::Long(number) => number,
            Scalar::Time(millis) => millis,
        }
    }
}
