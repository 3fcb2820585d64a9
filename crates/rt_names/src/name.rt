ghost use Rattle.std.specs.Prelude.{◌≡◌, ◌<◌, IfOk};

use crate::parts::Parts;
use rt_lists::Text;
use std::alloc::{AllocError, Global};
use thiserror::Error;

/// The name of a segment.
#[derive(Drop)]
pub struct SegmentName {
    /// The table's name: 1 to 128 letters, digits, `_` or `-` of ASCII.
    pub table: Text,
    /// The stream's partition.
    pub partition: u32,
    /// The place among the partition's segments, from 0.
    pub sequence: u32,
    /// The minute in UTC in which the segment was made, as `minute_of` gives it.
    pub minute: [u8; 14],
}

/// Why a text is not read as a name.
#[derive(Clone, Copy, Debug, PartialEq, Eq, Error)]
pub enum NameRefused {
    /// No segment's name has this text.
    #[error("no segment's name has this text")]
    Shape,
    /// Memory was refused.
    #[error("out of memory")]
    Memory,
}

impl From<AllocError> for NameRefused {
    ghost use Rattle.rt_names.specs.declared.name.NameRefused.TheVariants.{Memory};

    ghost from_gives = { λ _ refused. refused ≡ Memory };

    fn from(_error: AllocError) -> Self {
        NameRefused::Memory
    }
}

impl SegmentName {
    ghost use Rattle.rt_names.specs.Minute.{IsMinute};
    ghost use Rattle.rt_names.specs.Name.{name_text, IsSegmentName, IsRead, IsOnlyRead};
    ghost use Rattle.rt_names.specs.declared.name.SegmentName.{SegmentName};

    /// The text of the name: `table__partition__sequence__minute`. Fails only where memory is refused.
    pub fn format(&self, alloc: Global) -> Result<Text, AllocError>
        requires { IsMinute self.now.minute }
        ensures { IfOk result (λ text. text ≡ name_text self.now) }
    {
        let table = self.table.as_str();
        let partition = self.partition;
        let sequence = self.sequence;
        let minute = str::from_utf8(&self.minute).unwrap();
        Ok(Text::of(format!(in alloc; "{table}__{partition}__{sequence}__{minute}")?))
    }

    /// The name that a text is of, split at the last three `__`. Shape where no name has the text.
    pub fn read(alloc: Global, text: &str) -> Result<Self, NameRefused>
        ensures reads { IsRead text.now result }
        ensures one { (name : SegmentName) → IsSegmentName name → name_text name ≡ text.now → IsOnlyRead name result }
    {
        let Some(parts) = Parts::of(text) else {
            return Err(NameRefused::Shape);
        };
        Ok(SegmentName {
            table: Text::copied_from(alloc, parts.table)?,
            partition: parts.partition,
            sequence: parts.sequence,
            minute: parts.minute,
        })
    }
}
