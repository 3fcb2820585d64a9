ghost use Rattle.std.specs.Prelude.{◌≡◌};
ghost use Rattle.rt_schema.specs.Refused.{number_of};
ghost use Rattle.rt_schema.specs.declared.schema_refused.SchemaRefused.TheVariants.{Memory};

use std::alloc::AllocError;

/// Why a schema or table text is refused: the first of these, in this order, that holds of the text.
#[derive(Clone, Copy, Debug, PartialEq, Eq)]
pub enum SchemaRefused {
    /// It is no JSON object.
    NotJson,
    /// A key that is needed is absent or null, or a value is of another JSON kind than its key has.
    MissingField,
    /// A data type or a table type isn't taken.
    UnknownType,
    /// Two columns have one name.
    DuplicateColumn,
    /// A count or a length is past its limit.
    Limit,
    /// Memory ran out.
    Memory,
}

impl SchemaRefused {
    /// The number by which a refusal of the text is reported; want of memory has none.
    pub fn number(self) -> Option<u32>
        ensures { result ≡ number_of self }
    {
        match self {
            SchemaRefused::NotJson => Some(1),
            SchemaRefused::MissingField => Some(2),
            SchemaRefused::UnknownType => Some(3),
            SchemaRefused::DuplicateColumn => Some(4),
            SchemaRefused::Limit => Some(5),
            SchemaRefused::Memory => None,
        }
    }
}

impl From<AllocError> for SchemaRefused {
    ghost from_gives = { λ _ e. e ≡ Memory };

    fn from(_refused: AllocError) -> SchemaRefused {
        SchemaRefused::Memory
    }
}
