ghost use Rattle.std.specs.Prelude.{◌≡◌};
ghost use Rattle.rt_model.specs.Match.{accepted, accepts, compares, is_one_of, lies_between};
ghost use Rattle.rt_model.specs.Values.{against, number_against, text_against, truth_against};

use rt_lists::Text;
use rt_model::{Comparison, Literal};
use rt_schema::Value;
use std::cmp::Ordering;

/// Whether a value compares so with a literal; false where the literal isn't of the value's kind.
pub fn compares(comparison: Comparison, value: &Value, literal: &Literal) -> bool
    ensures { result ≡ compares comparison value.now literal.now }
{
    accepted(comparison, against(value, literal))
}

/// Whether a value lies between two literals, both included.
pub fn lies_between(value: &Value, low: &Literal, high: &Literal) -> bool
    ensures { result ≡ lies_between value.now low.now high.now }
{
    compares(Comparison::AtLeast, value, low) && compares(Comparison::AtMost, value, high)
}

/// Whether a value equals one of the literals.
pub fn is_one_of(value: &Value, literals: &[Literal]) -> bool
    ensures { result ≡ is_one_of value.now literals.now }
{
    for literal in literals {
        if compares(Comparison::Equal, value, literal) {
            return true;
        }
    }
    false
}

fn against(value: &Value, literal: &Literal) -> Option<Ordering>
    ensures { result ≡ against value.now literal.now }
{
    match value {
        Value::Int(number) => number_against(i64::from(*number), literal),
        Value::Long(number) => number_against(*number, literal),
        Value::Text(text) => text_against(text, literal),
        Value::Bool(truth) => truth_against(*truth, literal),
        Value::Time(millis) => number_against(*millis, literal),
    }
}

/// How a whole number stands to a literal; none where the literal is no number.
pub fn number_against(number: i64, literal: &Literal) -> Option<Ordering>
    ensures { result ≡ number_against number literal.now }
{
    match literal {
        Literal::Int(other) => Some(number.cmp(other)),
        _other => None,
    }
}

/// How a text stands to a literal, by the bytes; none where the literal is no text.
pub fn text_against(text: &Text, literal: &Literal) -> Option<Ordering>
    ensures { result ≡ text_against text.now literal.now }
{
    match literal {
        Literal::Text(other) => Some(text.as_bytes().cmp(other.as_bytes())),
        _other => None,
    }
}

/// How a truth stands to a literal, false before true; none where the literal is no truth.
pub fn truth_against(truth: bool, literal: &Literal) -> Option<Ordering>
    ensures { result ≡ truth_against truth literal.now }
{
    match literal {
        Literal::Bool(other) => Some(truth.cmp(other)),
        _other => None,
    }
}

/// Whether what stands so to a literal compares so with it; false where the literal isn't of its kind.
pub fn accepted(comparison: Comparison, ordering: Option<Ordering>) -> bool
    ensures { result ≡ accepted comparison ordering }
{
    match ordering {
        Some(ordering) => accepts(comparison, ordering),
        None => false,
    }
}

fn accepts(comparison: Comparison, ordering: Ordering) -> bool
    ensures { result ≡ accepts comparison ordering }
{
    match comparison {
        Comparison::Equal => ordering.is_eq(),
        Comparison::NotEqual => ordering.is_ne(),
        Comparison::Less => ordering.is_lt(),
        Comparison::AtMost => ordering.is_le(),
        Comparison::Greater => ordering.is_gt(),
        Comparison::AtLeast => ordering.is_ge(),
    }
}
