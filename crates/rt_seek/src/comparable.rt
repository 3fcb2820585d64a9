ghost use Rattle.std.specs.Prelude.{◌≡◌, Bool, Option as Maybe, Some, IfOk};
ghost use Rattle.std.specs.declared.cmp.Ordering.{Ordering as Order};
ghost use Rattle.rt_model.specs.declared.query_parts.Literal.{Literal as AnyLiteral};
ghost use Rattle.rt_model.specs.Values.{number_against, text_against, truth_against};
ghost use Rattle.rt_seek.specs.Keys.{StandsTo, int_of, long_of, text_of, truth_of};
ghost use Rattle.rt_seek.specs.KeyLaws.{int_stands, long_stands, text_stands, truth_stands};

use rt_dict::Key;
use rt_filter::{number_against, text_against, truth_against};
use rt_lists::Text;
use rt_model::Literal;
use std::alloc::{AllocError, Global};
use std::cmp::Ordering;

/// A key of dictionaries that literals are compared with.
pub trait Comparable: Key {
    /// How a key stands to a literal; none where the literal isn't of its kind.
    ghost against: { Self → AnyLiteral → Maybe Order };

    /// The key that equals a literal, where there is one.
    ghost key_of: { AnyLiteral → Maybe Self };

    /// How this key stands to a literal; none where the literal isn't of its kind.
    fn against(&self, literal: &Literal) -> Option<Ordering>
        ensures { result ≡ against self.now literal.now };

    /// The key that equals a literal, where there is one. Fails only where memory is refused.
    fn key_of(alloc: Global, literal: &Literal) -> Result<Option<Self>, AllocError>
        ensures { IfOk result (λ key. key ≡ key_of literal.now) };

    /// Keys stand to a literal as they do to its key.
    ghost stands: { (l : AnyLiteral) (key : Self) → key_of l ≡ Some key → (v : Self) → StandsTo Self.below v key (against v l) };
}

impl Comparable for i32 {
    ghost against = { number_against };

    ghost key_of = { int_of };

    ghost stands = { int_stands };

    fn against(&self, literal: &Literal) -> Option<Ordering> {
        number_against(i64::from(*self), literal)
    }

    fn key_of(_alloc: Global, literal: &Literal) -> Result<Option<Self>, AllocError> {
        match literal {
            Literal::Int(number) => Ok(i32::try_from(*number).ok()),
            _other => Ok(None),
        }
    }
}

impl Comparable for i64 {
    ghost against = { number_against };

    ghost key_of = { long_of };

    ghost stands = { long_stands };

    fn against(&self, literal: &Literal) -> Option<Ordering> {
        number_against(*self, literal)
    }

    fn key_of(_alloc: Global, literal: &Literal) -> Result<Option<Self>, AllocError> {
        match literal {
            Literal::Int(number) => Ok(Some(*number)),
            _other => Ok(None),
        }
    }
}

impl Comparable for Text {
    ghost against = { text_against };

    ghost key_of = { text_of };

    ghost stands = { text_stands };

    fn against(&self, literal: &Literal) -> Option<Ordering> {
        text_against(self, literal)
    }

    fn key_of(alloc: Global, literal: &Literal) -> Result<Option<Self>, AllocError> {
        match literal {
            Literal::Text(text) => Ok(Some(text.copy(alloc)?)),
            _other => Ok(None),
        }
    }
}

impl Comparable for bool {
    ghost against = { truth_against };

    ghost key_of = { truth_of };

    ghost stands = { truth_stands };

    fn against(&self, literal: &Literal) -> Option<Ordering> {
        truth_against(*self, literal)
    }

    fn key_of(_alloc: Global, literal: &Literal) -> Result<Option<Self>, AllocError> {
        match literal {
            Literal::Bool(truth) => Ok(Some(*truth)),
            _other => Ok(None),
        }
    }
}
