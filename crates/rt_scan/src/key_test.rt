ghost use Rattle.std.specs.Prelude.{◌≡◌};
ghost use Rattle.rt_model.specs.Values.{against, text_against};
ghost use Rattle.rt_agg.specs.ValueRef.{value_lent};
ghost use Rattle.rt_scan.specs.Summaries.{passes_key};

use rt_agg::{GroupKey, ValueRef};
use rt_filter::{accepted, number_against, truth_against};
use rt_model::{Comparison, Literal};
use std::cmp::Ordering;

/// A test on the keys of groups of one column.
#[derive(Clone, Copy)]
pub(crate) enum KeyTest<'a> {
    /// Every key passes.
    Any,
    /// The value compares so with the literal.
    Compare(Comparison, &'a Literal),
}

impl<'a> KeyTest<'a> {
    /// Whether a key passes.
    pub(crate) fn passes(&self, key: &GroupKey) -> bool
        ensures { result ≡ passes_key self.now key.now }
    {
        match self {
            KeyTest::Any => true,
            KeyTest::Compare(comparison, literal) => {
                key.len() > 0 && accepted(*comparison, lent_against(key.at(0), literal))
            }
        }
    }
}

// How a value that is lent stands to a literal; none where the literal isn't of its kind.
fn lent_against(value: ValueRef<'_>, literal: &Literal) -> Option<Ordering>
    ensures { result ≡ against (value_lent value.entry) literal.now }
{
    match value {
        ValueRef::Int(number) => number_against(i64::from(number), literal),
        ValueRef::Long(number) => number_against(number, literal),
        ValueRef::Text(text) => text_against(text, literal),
        ValueRef::Bool(truth) => truth_against(truth, literal),
        ValueRef::Time(millis) => number_against(millis, literal),
    }
}

fn text_against(text: &str, literal: &Literal) -> Option<Ordering>
    ensures { result ≡ text_against text.now literal.now }
{
    match literal {
        Literal::Text(other) => Some(text.as_bytes().cmp(other.as_bytes())),
        _other => None,
    }
}
