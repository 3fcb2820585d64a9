ghost use Rattle.std.specs.Prelude.{◌≡◌, ◌⊎◌};

use crate::column_names::are_columns;
use crate::consuming::Consuming;
use rt_base::Offset;
use rt_build::seal_as;
use rt_call_words::{Segment, Stop};
use rt_lists::{Items, Text};
use rt_segment::Sealed;
use std::alloc::Global;

/// What a seal is asked for.
#[derive(Drop)]
pub(crate) struct Sealing {
    pub(crate) segment: Segment,
    pub(crate) end: Offset,
    pub(crate) format: Format,
    pub(crate) indexed: Items<Text>,
}

impl Sealing {
    /// Seals the rows below the end.
    #[tactic(auto, using(crate::proofs::Shapes::among_columns))]
    pub(crate) fn seal(&self, alloc: Global, consuming: &Consuming) -> Result<Sealed, Stop> {
        let rows = &consuming.segment;
        let indexed = self.indexed.as_slice();
        let is_within = rows.start().0 < self.end.0 && self.end.0 <= rows.end().0;
        if !is_within || !are_columns(indexed, consuming.schema.columns.as_slice()) {
            return Err(Stop::Refused);
        }
        let Segment {
            partition,
            sequence,
        } = self.segment;
        let format = self.format.number();
        Ok(seal_as(alloc, rows, partition, sequence, self.end, indexed, format)?)
    }
}

/// The formats of files.
#[derive(Clone, Copy)]
pub(crate) enum Format {
    First,
    Second,
}

impl Format {
    fn number(self) -> u8
        ensures { (result ≡ 1) ⊎ (result ≡ 2) }
    {
        match self {
            Format::First => 1,
            Format::Second => 2,
        }
    }
}
