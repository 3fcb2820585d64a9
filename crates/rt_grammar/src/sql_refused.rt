ghost use Rattle.std.specs.Prelude.{◌≡◌};
ghost use Rattle.rt_grammar.specs.declared.sql_refused.SqlRefused.TheVariants.{Memory};

use std::alloc::AllocError;

/// Why a text is refused as a query of a table. A text of more than 65,536 bytes, and one that nests
/// deeper than 64 before its first fault, is `Limit`; else the first of these that applies is answered.
#[derive(Clone, Copy, Debug, PartialEq, Eq)]
pub enum SqlRefused {
    /// No query has this text.
    Syntax {
        /// The first byte of the first token that no query has in its place, or the text's length; in a
        /// text of the grammar, that of the first item, name or key that breaks a further rule.
        byte: u64,
    },
    /// The name behind FROM is neither the table's nor that with `_REALTIME` behind it.
    NoTable,
    /// The schema has no column of a name.
    NoColumn,
    /// A column of this kind isn't used so.
    WrongType,
    /// A literal isn't a whole number of 64 bits, or LIMIT is above 1,000,000.
    Limit,
    /// Memory ran out.
    Memory,
}

impl From<AllocError> for SqlRefused {
    ghost from_gives = { λ _ e. e ≡ Memory };

    fn from(_refused: AllocError) -> SqlRefused {
        SqlRefused::Memory
    }
}
