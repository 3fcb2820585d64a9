//! Tests on the keys of a dictionary.
ghost use Rattle.std.specs.Prelude.{◌≡◌};
ghost use Rattle.rt_seek.specs.Keys.{equals_one, key_passes};

use crate::column_test::ColumnTest;
use crate::comparable::Comparable;
use rt_filter::accepted;
use rt_model::{Comparison, Literal};

/// Whether a key passes a test.
pub(crate) fn key_passes<K: Comparable>(test: &ColumnTest<'_>, key: &K) -> bool
    ensures { result ≡ key_passes K.against test.now key.now }
{
    match test {
        ColumnTest::Compare(comparison, literal) => accepted(*comparison, key.against(literal)),
        ColumnTest::Between(low, high) => {
            accepted(Comparison::AtLeast, key.against(low))
                && accepted(Comparison::AtMost, key.against(high))
        }
        ColumnTest::OneOf(literals) => equals_one(key, literals),
        ColumnTest::NoneOf(literals) => !equals_one(key, literals),
    }
}

fn equals_one<K: Comparable>(key: &K, literals: &[Literal]) -> bool
    ensures { result ≡ equals_one K.against key.now literals.now }
{
    for literal in literals {
        if accepted(Comparison::Equal, key.against(literal)) {
            return true;
        }
    }
    false
}
