ghost use Rattle.std.specs.Prelude.{◌≡◌, ◌↔◌, ◌<◌, ◌≤◌, [], None, Some, All, length, slice_get, IfOk};
ghost use Rattle.rt_schema.specs.Row.{IsRowOf};
ghost use Rattle.rt_schema.specs.Schema.{IsSchema};
ghost use Rattle.rt_agg.specs.Grouped.{Holds};
ghost use Rattle.rt_model.specs.Aggregate.{aggregate, taken};
ghost use Rattle.rt_model.specs.Checked.{IsQuery};
ghost use Rattle.rt_hybrid.specs.Pushes.{Makes, Pushes, IsTimeAt};
ghost use Rattle.rt_hybrid.specs.Sides.{hybrid_rows, offline_side, realtime_side};
ghost use Rattle.rt_hybrid.specs.Table.{boundary_of, offline_rows};

use crate::HybridRefused;
use crate::batch::Batch;
use crate::scanning::{add_files, add_past};
use crate::timed::timed;
use crate::times::{day_before, place_of};
use rt_agg::Groups;
use rt_lists::{Copied, Items};
use rt_model::{ColumnAt, Query, ResultRow};
use rt_schema::{Column, Row, Schema};
use rt_segment::Sealed;
use std::alloc::{AllocError, Global};
use std::marker::Model;

/// The offline rows of a hybrid table, in files, and the boundary between their side and the realtime side.
#[derive(Drop)]
pub struct Hybrid {
    schema: Schema,
    time: u32,
    files: Items<Sealed>,
    greatest: Option<i64>,
}

impl Model for Hybrid {
    ghost use Rattle.rt_hybrid.specs.Pushes.{IsOffline};
    ghost use Rattle.rt_hybrid.specs.Table.{OfflineTable};

    ghost Value = { OfflineTable };

    ghost view = { λ a. record { schema = a.schema; time = a.time; files = a.files } };

    ghost invariant = { λ a. IsOffline (record { schema = a.schema; time = a.time; files = a.files }) a.greatest };
}

impl Hybrid {
    /// The table of a schema before its first push; NoTime exactly where the time column isn't a LONG or TIMESTAMP column.
    pub fn make(alloc: Global, schema: &Schema, time: &str) -> Result<Hybrid, HybridRefused>
        requires { IsSchema schema.now }
        ensures { Makes schema.now time.now result }
    {
        let Some(place) = place_of(time, schema.columns.as_slice()) else {
            return Err(HybridRefused::NoTime);
        };
        Ok(Hybrid {
            schema: schema.copied(alloc)?,
            time: place,
            files: Items::new(alloc),
            greatest: None,
        })
    }

    /// Pushes the rows of a text, and gives how many they are; NotRows exactly where it is no array of 1 to 10,000 objects each of
    /// which is a row, as a message's is one, with no text above 65,536 bytes. The file has the columns that some object has as a
    /// key, be it with null, or the first column where none has one. Where it is refused, all is as before.
    pub fn push(&mut self, alloc: Global, text: &str) -> Result<u32, HybridRefused>
        requires { length self.old.files < 4294967295 }
        ensures { Pushes text.now self.old self.new result }
    {
        let sequence = self.pushes();
        let time = self.time_column();
        match Batch::read(alloc, &self.schema, time, self.greatest, text) {
            Ok(batch) => {
                let count = batch.count();
                let greatest = batch.greatest;
                let file = batch.seal(alloc, sequence)?;
                self.files.push(file)?;
                self.greatest = greatest;
                Ok(count)
            }
            Err(refused) => Err(refused),
        }
    }

    /// How many pushes there were.
    pub fn pushes(&self) -> u32
        ensures { result ≡ length self.now.files }
    {
        self.files.len() as u32
    }

    /// The boundary, in milliseconds: one day before the greatest offline time, saturating. None exactly where nothing was pushed.
    pub fn boundary(&self) -> Option<i64>
        ensures boundary { result ≡ boundary_of self.now }
        ensures none { (result ≡ None) ↔ (self.now.files ≡ []) }
    {
        match self.greatest {
            Some(greatest) => Some(day_before(greatest)),
            None => None,
        }
    }

    /// The groups of the offline rows at or before the boundary that a query takes. Files that their values rule out aren't read.
    /// Fails only where memory is refused.
    pub fn offline(&self, alloc: Global, query: &Query) -> Result<Groups, AllocError>
        requires { IsQuery self.now.schema query.now }
        ensures groups { IfOk result (Holds query.now (taken query.now (offline_side self.now))) }
        ensures few { IfOk result (λ groups. length (offline_rows self.now) ≤ 42949672950000) }
    {
        match self.boundary() {
            Some(boundary) => self.offline_before(alloc, query, boundary),
            None => self.no_groups(alloc, query),
        }
    }

    /// The groups of the rows of the schema that a query takes of those past the boundary, or of all where there is none. Fails
    /// only where memory is refused.
    pub fn realtime(&self, alloc: Global, query: &Query, rows: &[Row]) -> Result<Groups, AllocError>
        requires query { IsQuery self.now.schema query.now }
        requires rows { All (IsRowOf self.now.schema) rows.now }
        requires few { length rows.now < 9223372036854775808 }
        ensures { IfOk result (Holds query.now (taken query.now (realtime_side self.now rows.now))) }
    {
        let mut groups = Groups::make(alloc, query)?;
        add_past(alloc, &mut groups, query, self.boundary(), self.time, rows)?;
        Ok(groups)
    }

    /// The result rows of a query over both sides. Fails only where memory is refused.
    pub fn answer(
        &self,
        alloc: Global,
        query: &Query,
        rows: &[Row],
    ) -> Result<Items<ResultRow>, AllocError>
        requires query { IsQuery self.now.schema query.now }
        requires rows { All (IsRowOf self.now.schema) rows.now }
        requires few { length rows.now < 4611686018427387904 }
        ensures { IfOk result (λ answer. answer ≡ aggregate query.now (hybrid_rows self.now rows.now)) }
    {
        let mut groups = self.offline(alloc, query)?;
        let realtime = self.realtime(alloc, query, rows)?;
        groups.merge(alloc, &realtime)?;
        let answer = groups.finish(alloc)?;
        Ok(answer)
    }

    // The groups of the offline rows at or before a boundary, which is the table's.
    fn offline_before(
        &self,
        alloc: Global,
        query: &Query,
        boundary: i64,
    ) -> Result<Groups, AllocError>
        requires query { IsQuery self.now.schema query.now }
        requires boundary { boundary_of self.now ≡ Some boundary }
        ensures groups { IfOk result (Holds query.now (taken query.now (offline_side self.now))) }
        ensures few { IfOk result (λ groups. length (offline_rows self.now) ≤ 42949672950000) }
    {
        // What holds of every table, here that its rows are few, is known once a field of it is read.
        let _ = &self.files;
        let asked = timed(alloc, query, self.time_at(alloc)?, boundary)?;
        let groups = self.scanned(alloc, &asked)?;
        Ok(groups)
    }

    // The groups of all offline rows that a query takes.
    fn scanned(&self, alloc: Global, query: &Query) -> Result<Groups, AllocError>
        requires { IsQuery self.now.schema query.now }
        ensures groups { IfOk result (Holds query.now (taken query.now (offline_rows self.now))) }
        ensures few { IfOk result (λ groups. length (offline_rows self.now) ≤ 42949672950000) }
    {
        let mut groups = Groups::make(alloc, query)?;
        add_files(
            alloc,
            &mut groups,
            query,
            &self.schema,
            self.files.as_slice(),
        )?;
        Ok(groups)
    }

    // The groups of no row, where there is no boundary.
    fn no_groups(&self, alloc: Global, query: &Query) -> Result<Groups, AllocError>
        requires { boundary_of self.now ≡ None }
        ensures groups { IfOk result (Holds query.now (taken query.now (offline_side self.now))) }
        ensures few { IfOk result (λ groups. length (offline_rows self.now) ≤ 42949672950000) }
    {
        // What holds of every table, here that its rows are few, is known once a field of it is read.
        let _ = &self.files;
        let groups = Groups::make(alloc, query)?;
        Ok(groups)
    }

    fn time_column(&self) -> &Column
        ensures { slice_get self.now.schema.columns self.now.time ≡ Some result.now }
    {
        &self.schema.columns.as_slice()[self.time as usize]
    }

    // The time column, as a query names it.
    fn time_at(&self, alloc: Global) -> Result<ColumnAt, AllocError>
        ensures { IfOk result (IsTimeAt self.now) }
    {
        let column = self.time_column();
        Ok(ColumnAt {
            name: column.name.copy(alloc)?,
            place: self.time,
        })
    }
}
