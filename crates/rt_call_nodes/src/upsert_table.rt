ghost use Rattle.std.specs.Prelude.{◌≡◌, ◌≤◌, length, map};
ghost use Rattle.rt_schema.specs.Value.{kind_of};

use crate::row_words::write_place;
use rt_base::Sequence;
use rt_call_words::{Answer, Stop};
use rt_schema::{Row, Schema, SchemaRefused, read_schema};
use rt_upconf::{UpsertRefused, read_upsert};
use rt_upsert::{AddRefused, Place, Upsert};
use std::alloc::Global;
use std::collections::BTreeSet;

/// The latest rows of an upsert table, and the places at which rows were offered.
pub(crate) struct UpsertTable {
    pub(crate) schema: Schema,
    upsert: Upsert,
    named: BTreeSet<Place>,
    offered: u32,
    ghost kinds: { upsert.kinds ≡ map (λ column. column.kind) schema.columns },
    ghost few: { length upsert.rows ≤ offered },
}

// Written out: whoever drops a table calls this, and its proof needs nothing of the fields.
impl Drop for UpsertTable {
    fn drop(self) {
        let UpsertTable {
            schema: _,
            upsert: _,
            named: _,
            offered: _,
        } = self;
    }
}

impl UpsertTable {
    /// A table without rows, by the texts of its schema and its settings.
    pub(crate) fn make(
        alloc: Global,
        schema_text: &str,
        table_text: &str,
    ) -> Result<UpsertTable, Stop> {
        let schema = match read_schema(alloc, schema_text) {
            Ok(schema) => schema,
            Err(SchemaRefused::Memory) => return Err(Stop::Memory),
            Err(_) => return Err(Stop::Refused),
        };
        let config = match read_upsert(alloc, schema_text, table_text, &schema) {
            Ok(Some(config)) => config,
            Err(UpsertRefused::Memory) => return Err(Stop::Memory),
            Ok(None) | Err(_) => return Err(Stop::Refused),
        };
        let upsert = Upsert::make(alloc, &schema, &config)?;
        Ok(UpsertTable {
            schema,
            upsert,
            named: BTreeSet::new(alloc),
            offered: 0,
        })
    }

    /// Offers a row of the schema at a place.
    #[tactic(auto, using(crate::proofs::Counts::put_few))]
    pub(crate) fn add(
        &mut self,
        alloc: Global,
        place: Place,
        row: &Row,
        answer: &mut Answer,
    ) -> Result<(), Stop>
        requires { map kind_of row.now.values ≡ map (λ column. column.kind) self.old.schema.columns }
    {
        if place.row == u32::MAX || self.offered == u32::MAX {
            return Err(Stop::Refused);
        }
        let _is_new = self.named.insert(place)?;
        self.offered += 1;
        match self.upsert.add(alloc, place, row) {
            Ok(()) => answer.add("ok"),
            Err(AddRefused::Taken(taken)) => {
                answer.add("taken ");
                write_place(taken, answer);
            }
            Err(AddRefused::Memory) => return Err(Stop::Memory),
        }
        Ok(())
    }

    /// Drops the rows of a sequence from one on, and gives how many these were.
    #[tactic(auto, using(crate::proofs::Counts::stay_few))]
    pub(crate) fn take_out(&mut self, sequence: Sequence, from: u32) -> u32 {
        self.upsert.take_out(sequence, from)
    }

    /// Adds `latest` and, ascending, those places at which rows were offered that have the latest row of a key.
    pub(crate) fn write_latest(&self, answer: &mut Answer) {
        answer.add("latest");
        let mut is_empty = true;
        for place in &self.named {
            if self.upsert.latest(*place) {
                answer.add(" ");
                write_place(*place, answer);
                is_empty = false;
            }
        }
        if is_empty {
            answer.add(" -");
        }
    }
}
