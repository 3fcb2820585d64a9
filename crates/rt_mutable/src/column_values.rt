ghost use Rattle.std.specs.Prelude.{◌≡◌, ◌<◌, ◌-◌, [], ◌∷◌, ◌++◌, Some, length, take, slice_get, position, IfOk, OnOk, OnErr};
ghost use Rattle.rt_schema.specs.Value.{kind_of};
ghost use Rattle.rt_schema.specs.declared.value.Value.TheVariants.{Int, Long, Time};
ghost use Rattle.rt_mutable.specs.Arrivals.{arrivals_of, id_among, ids_of};
ghost use Rattle.rt_mutable.specs.Column.{same_value, values_in, kind_in};

use crate::Arrivals;
use rt_base::limits::MOST_ROWS;
use rt_dict::Key;
use rt_lists::Text;
use rt_schema::{Kind, Value};
use std::alloc::{AllocError, Global};

/// The values of a column, row by row, of one kind.
#[derive(Drop)]
pub enum ColumnValues {
    Int(Arrivals<i32>),
    Long(Arrivals<i64>),
    Text(Arrivals<Text>),
    Bool(Arrivals<bool>),
    /// Milliseconds.
    Time(Arrivals<i64>),
}

impl ColumnValues {
    /// No row of a kind. It takes no memory yet.
    pub(crate) fn new(alloc: Global, kind: Kind) -> ColumnValues
        ensures kind { kind_in result ≡ kind }
        ensures empty { values_in result ≡ [] }
    {
        match kind {
            Kind::Int => ColumnValues::Int(Arrivals::new(alloc)),
            Kind::Long => ColumnValues::Long(Arrivals::new(alloc)),
            Kind::Text => ColumnValues::Text(Arrivals::new(alloc)),
            Kind::Bool => ColumnValues::Bool(Arrivals::new(alloc)),
            Kind::Time => ColumnValues::Time(Arrivals::new(alloc)),
        }
    }

    /// The kind of the values.
    pub fn kind(&self) -> Kind
        ensures { result ≡ kind_in self.now }
    {
        match self {
            ColumnValues::Int(_) => Kind::Int,
            ColumnValues::Long(_) => Kind::Long,
            ColumnValues::Text(_) => Kind::Text,
            ColumnValues::Bool(_) => Kind::Bool,
            ColumnValues::Time(_) => Kind::Time,
        }
    }

    /// The number of rows.
    pub fn rows(&self) -> usize
        ensures { result ≡ length (values_in self.now) }
    {
        match self {
            ColumnValues::Int(arrivals) => arrivals.rows(),
            ColumnValues::Long(arrivals) => arrivals.rows(),
            ColumnValues::Text(arrivals) => arrivals.rows(),
            ColumnValues::Bool(arrivals) => arrivals.rows(),
            ColumnValues::Time(arrivals) => arrivals.rows(),
        }
    }

    /// The id of a value, where a row has it.
    pub fn id_of(&self, value: &Value) -> Option<u32>
        requires { kind_of value.now ≡ kind_in self.now }
        ensures { result ≡ position (same_value value.now) (arrivals_of same_value (values_in self.now)) }
    {
        match self {
            ColumnValues::Int(arrivals) => match value {
                Value::Int(number) => arrivals.id_of(number),
                _ => unreachable!(),
            },
            ColumnValues::Long(arrivals) => match value {
                Value::Long(number) => arrivals.id_of(number),
                _ => unreachable!(),
            },
            ColumnValues::Text(arrivals) => match value {
                Value::Text(text) => arrivals.id_of(text),
                _ => unreachable!(),
            },
            ColumnValues::Bool(arrivals) => match value {
                Value::Bool(truth) => arrivals.id_of(truth),
                _ => unreachable!(),
            },
            ColumnValues::Time(arrivals) => match value {
                Value::Time(millis) => arrivals.id_of(millis),
                _ => unreachable!(),
            },
        }
    }

    /// The id of each row's value: its place among the distinct values in the order of their first
    /// arrival.
    pub fn ids(&self) -> &[u32]
        ensures { result.now ≡ ids_of same_value (values_in self.now) }
    {
        match self {
            ColumnValues::Int(arrivals) => arrivals.ids(),
            ColumnValues::Long(arrivals) => arrivals.ids(),
            ColumnValues::Text(arrivals) => arrivals.ids(),
            ColumnValues::Bool(arrivals) => arrivals.ids(),
            ColumnValues::Time(arrivals) => arrivals.ids(),
        }
    }

    /// The number of distinct values. Ids are below it.
    pub fn len(&self) -> usize
        ensures { result ≡ length (arrivals_of same_value (values_in self.now)) }
    {
        match self {
            ColumnValues::Int(arrivals) => arrivals.keys().len(),
            ColumnValues::Long(arrivals) => arrivals.keys().len(),
            ColumnValues::Text(arrivals) => arrivals.keys().len(),
            ColumnValues::Bool(arrivals) => arrivals.keys().len(),
            ColumnValues::Time(arrivals) => arrivals.keys().len(),
        }
    }

    /// A copy of the value with an id. Fails only where memory is refused.
    pub fn value(&self, alloc: Global, id: u32) -> Result<Value, AllocError>
        requires { id < length (arrivals_of same_value (values_in self.now)) }
        ensures { IfOk result (λ value. slice_get (arrivals_of same_value (values_in self.now)) id ≡ Some value) }
    {
        match self {
            ColumnValues::Int(arrivals) => Ok(int_value(arrivals.key(id))),
            ColumnValues::Long(arrivals) => Ok(long_value(arrivals.key(id))),
            ColumnValues::Text(arrivals) => Ok(Value::Text(arrivals.key(id).copy(alloc)?)),
            ColumnValues::Bool(arrivals) => Ok(Value::Bool(*arrivals.key(id))),
            ColumnValues::Time(arrivals) => Ok(time_value(arrivals.key(id))),
        }
    }

    /// Adds a row with a value, and answers the value's id. Where memory is refused, all is as before.
    pub(crate) fn push(&mut self, alloc: Global, value: &Value) -> Result<u32, AllocError>
        requires kind { kind_of value.now ≡ kind_in self.old }
        requires room { length (values_in self.old) < MOST_ROWS }
        ensures kind { kind_in self.new ≡ kind_in self.old }
        ensures values { OnOk result (values_in self.new ≡ values_in self.old ++ value.now ∷ []) }
        ensures id { IfOk result (λ id. id ≡ id_among same_value (arrivals_of same_value (values_in self.new)) value.now) }
        ensures err { OnErr result (self.new ≡ self.old) }
    {
        match self {
            ColumnValues::Int(arrivals) => match value {
                Value::Int(number) => arrivals.push(alloc, number),
                _ => unreachable!(),
            },
            ColumnValues::Long(arrivals) => match value {
                Value::Long(number) => arrivals.push(alloc, number),
                _ => unreachable!(),
            },
            ColumnValues::Text(arrivals) => match value {
                Value::Text(text) => arrivals.push(alloc, text),
                _ => unreachable!(),
            },
            ColumnValues::Bool(arrivals) => match value {
                Value::Bool(truth) => arrivals.push(alloc, truth),
                _ => unreachable!(),
            },
            ColumnValues::Time(arrivals) => match value {
                Value::Time(millis) => arrivals.push(alloc, millis),
                _ => unreachable!(),
            },
        }
    }

    /// Takes the last row back, and its value too where no other row has it.
    pub(crate) fn take_back(&mut self)
        requires { 0 < length (values_in self.old) }
        ensures kind { kind_in self.new ≡ kind_in self.old }
        ensures values { values_in self.new ≡ take (length (values_in self.old) - 1) (values_in self.old) }
    {
        match self {
            ColumnValues::Int(arrivals) => arrivals.take_back(),
            ColumnValues::Long(arrivals) => arrivals.take_back(),
            ColumnValues::Text(arrivals) => arrivals.take_back(),
            ColumnValues::Bool(arrivals) => arrivals.take_back(),
            ColumnValues::Time(arrivals) => arrivals.take_back(),
        }
    }
}

fn int_value(number: &i32) -> Value
    ensures { result ≡ Int number.now }
{
    Value::Int(*number)
}

fn long_value(number: &i64) -> Value
    ensures { result ≡ Long number.now }
{
    Value::Long(*number)
}

fn time_value(millis: &i64) -> Value
    ensures { result ≡ Time millis.now }
{
    Value::Time(*millis)
}
