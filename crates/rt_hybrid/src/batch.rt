ghost use Rattle.std.specs.Prelude.{◌≡◌, ◌≤◌, [], All, length, map, IfOk};
ghost use Rattle.serde_json.specs.View.{view};
ghost use Rattle.rt_build.specs.Sealing.{IsSealOf};
ghost use Rattle.rt_mutable.specs.Consuming.{IsShort};
ghost use Rattle.rt_schema.specs.Row.{IsRowOf};
ghost use Rattle.rt_schema.specs.Schema.{IsSchema};
ghost use Rattle.rt_hybrid.specs.Reads.{Reads, ReadsOf};
ghost use Rattle.rt_hybrid.specs.Sealing.{consuming_of};

use crate::HybridRefused;
use crate::reading::{columns_kept, few_items, read_json};
use crate::rows::rows_in;
use crate::sealing::sealed;
use crate::times::greatest_with;
use rt_lists::Items;
use rt_schema::{Column, Row, Schema};
use rt_segment::Sealed;
use serde_json::Value as Json;
use std::alloc::{AllocError, Global};

/// What is read of a text that is pushed: the columns that its objects have, their rows in these columns, and the greatest time of
/// these and all earlier rows.
#[derive(Drop)]
pub(crate) struct Batch {
    pub(crate) columns: Items<Column>,
    pub(crate) rows: Items<Row>,
    pub(crate) greatest: Option<i64>,
}

impl Batch {
    /// Reads a text; NotRows where it has no rows.
    pub(crate) fn read(
        alloc: Global,
        schema: &Schema,
        time: &Column,
        greatest: Option<i64>,
        text: &str,
    ) -> Result<Batch, HybridRefused>
        ensures reads { Reads schema.now time.now greatest text.now result }
    {
        let Some(json) = read_json(alloc, text)? else {
            return Err(HybridRefused::NotRows);
        };
        match few_items(&json) {
            Some(items) => Batch::of(alloc, schema, time, greatest, items),
            None => Err(HybridRefused::NotRows),
        }
    }

    // Reads the objects of a text.
    fn of(
        alloc: Global,
        schema: &Schema,
        time: &Column,
        greatest: Option<i64>,
        items: &[Json],
    ) -> Result<Batch, HybridRefused>
        ensures { ReadsOf schema.now time.now greatest (map view items.now) result }
    {
        let columns = columns_kept(alloc, schema.columns.as_slice(), items)?;
        let Some(rows) = rows_in(alloc, columns.as_slice(), items)? else {
            return Err(HybridRefused::NotRows);
        };
        let greatest = greatest_with(alloc, greatest, time, items)?;
        Ok(Batch {
            columns,
            rows,
            greatest,
        })
    }

    /// How many rows were read.
    pub(crate) fn count(&self) -> u32
        requires { length self.now.rows ≤ 10000 }
        ensures { result ≡ length self.now.rows }
    {
        self.rows.len() as u32
    }

    /// The file of the rows, with a sequence.
    pub(crate) fn seal(self, alloc: Global, sequence: u32) -> Result<Sealed, AllocError>
        requires schema { IsSchema (record { name = []; columns = self.columns }) }
        requires some { 1 ≤ length self.rows }
        requires few { length self.rows ≤ 10000 }
        requires fit { All (IsRowOf (record { name = []; columns = self.columns })) self.rows }
        requires short { All (λ row. All IsShort row.values) self.rows }
        ensures { IfOk result (IsSealOf 2 (record { 0 = 0 }) (record { 0 = sequence }) (record { 0 = length self.rows }) [] (consuming_of self.columns self.rows)) }
    {
        sealed(alloc, self.columns, self.rows.as_slice(), sequence)
    }
}
