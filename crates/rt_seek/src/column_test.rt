ghost use Rattle.std.specs.Prelude.{◌≡◌};
ghost use Rattle.rt_seek.specs.ColumnTest.{passes_test};

use rt_filter::{compares, is_one_of, lies_between};
use rt_model::{Comparison, Literal};
use rt_schema::Value;

/// A test on the value of a column.
#[derive(Clone, Copy)]
pub enum ColumnTest<'a> {
    /// The value compares so with the literal.
    Compare(Comparison, &'a Literal),
    /// The value lies between the two, both of which are included.
    Between(&'a Literal, &'a Literal),
    /// IN: the value equals one of the literals.
    OneOf(&'a [Literal]),
    /// NOT IN: the value equals none of the literals.
    NoneOf(&'a [Literal]),
}

impl<'a> ColumnTest<'a> {
    /// Whether a value passes.
    pub fn passes(&self, value: &Value) -> bool
        ensures { result ≡ passes_test self.now value.now }
    {
        match self {
            ColumnTest::Compare(comparison, literal) => compares(*comparison, value, literal),
            ColumnTest::Between(low, high) => lies_between(value, low, high),
            ColumnTest::OneOf(literals) => is_one_of(value, literals),
            ColumnTest::NoneOf(literals) => !is_one_of(value, literals),
        }
    }
}
