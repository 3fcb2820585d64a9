ghost use Rattle.std.specs.Prelude.{◌≡◌, ◌<◌, ◌-◌, ◌^◌, ◌≤◌, [], true, false, nat_lt, Some, IsTrue, All, AllPairs, length, filter, take, count_by, slice_get, option_copied, IfOk, IfSome, OnOk, OnErr};
ghost use Rattle.std.specs.List.Sorted.{IsPartitionPoint};
ghost use Rattle.rt_schema.specs.Schema.{IsSchema, is_among, names_of};
ghost use Rattle.rt_schema.specs.Value.{kind_of};
ghost use Rattle.rt_mutable.specs.Column.{same_value};
ghost use Rattle.rt_mutable.specs.Consuming.{after_message, empty_segment, is_before, next, rows_of, values_at, FitsColumns, IsConsuming, IsShort};
ghost use Rattle.rt_mutable.specs.RowLists.{numbers_where};

use crate::MutableColumn;
use crate::columns::{empty_columns, index_values, truncate_all, values_of_row};
use crate::room::reserve_row;
use rt_base::Offset;
use rt_base::limits::MOST_ROWS;
use rt_lists::{Items, Text};
use rt_schema::{Row, Schema, Value};
use std::alloc::{AllocError, Global};
use std::marker::Model;

/// The rows of a consuming segment, each with its message's offset.
///
/// The rows are kept by columns, and beside them the offsets.
#[derive(Drop)]
pub struct MutableSegment {
    start: Offset,
    end: Offset,
    offsets: Vec<Offset>,
    columns: Items<MutableColumn>,
}

impl Model for MutableSegment {
    ghost use Rattle.rt_mutable.specs.Consuming.{Consuming};
    ghost use Rattle.rt_mutable.specs.Columns.{segment_of, HoldRows};

    ghost Value = { Consuming };

    ghost view = { λ a. segment_of a.start a.end a.offsets.items a.columns };

    ghost invariant = { λ a. HoldRows a.start a.end a.offsets.items a.columns };
}

impl MutableSegment {
    /// A segment that holds no row of a schema yet, with no indexed column. Fails only where memory is
    /// refused.
    pub fn make(alloc: Global, schema: &Schema, start: Offset) -> Result<MutableSegment, AllocError>
        requires { IsSchema schema.now }
        ensures { IfOk result (λ segment. segment ≡ empty_segment schema.now.columns start []) }
    {
        MutableSegment::make_indexed(alloc, schema, start, &[])
    }

    /// A segment that holds no row of a schema yet; the named columns are indexed. Fails only where
    /// memory is refused.
    pub fn make_indexed(
        alloc: Global,
        schema: &Schema,
        start: Offset,
        indexed: &[Text],
    ) -> Result<MutableSegment, AllocError>
        requires schema { IsSchema schema.now }
        requires names { All (λ name. IsTrue (is_among name (names_of schema.now.columns))) indexed.now }
        ensures { IfOk result (λ segment. segment ≡ empty_segment schema.now.columns start indexed.now) }
    {
        let columns = empty_columns(alloc, schema.columns.as_slice(), indexed)?;
        Ok(MutableSegment {
            start,
            end: start,
            offsets: Vec::new(alloc),
            columns,
        })
    }

    /// The offset of the first message.
    pub fn start(&self) -> Offset
        ensures { result ≡ self.now.start }
    {
        self.start
    }

    /// The offset of the next message.
    pub fn end(&self) -> Offset
        ensures { result ≡ self.now.end }
    {
        self.end
    }

    /// The number of rows held.
    pub fn len(&self) -> u32
        ensures rows { result ≡ length self.now.rows }
        ensures right { IsConsuming self.now }
    {
        self.offsets.len() as u32
    }

    /// The number of columns.
    pub fn column_count(&self) -> u32
        ensures count { result ≡ length self.now.columns }
        ensures right { IsConsuming self.now }
    {
        self.columns.len() as u32
    }

    /// A column by its place, with its value in each row.
    pub fn column(&self, place: u32) -> &MutableColumn
        requires { place < length self.now.columns }
        ensures shape { slice_get self.now.columns place ≡ Some result.now.shape }
        ensures values { result.now.values ≡ values_at place self.now.rows }
    {
        &self.columns.as_slice()[place as usize]
    }

    /// The number of rows of earlier offsets. They are the first ones.
    pub fn rows_below(&self, offset: Offset) -> u32
        ensures count { result ≡ count_by (is_before offset) self.now.rows }
        ensures first { take result self.now.rows ≡ filter (is_before offset) self.now.rows }
        ensures right { IsConsuming self.now }
    {
        count_below(&self.offsets, offset) as u32
    }

    /// A copy of a row, by its number. Fails only where memory is refused.
    pub fn row(&self, alloc: Global, number: u32) -> Result<Row, AllocError>
        requires { number < length self.now.rows }
        ensures { IfOk result (λ row. slice_get (rows_of self.now) number ≡ Some row) }
    {
        let values = values_of_row(alloc, self.columns.as_slice(), number)?;
        Ok(Row { values })
    }

    /// The numbers of the rows that have a value in an indexed column, ascending. It takes no memory.
    pub fn docs_equal(&self, column: u32, value: &Value) -> &[u32]
        requires column { column < length self.now.columns }
        requires indexed { IfSome (slice_get self.now.columns column) (λ shape. shape.indexed ≡ true) }
        requires kind { IfSome (slice_get self.now.columns column) (λ shape. kind_of value.now ≡ shape.kind) }
        ensures { result.now ≡ numbers_where (same_value value.now) (values_at column self.now.rows) }
    {
        self.column(column).docs_equal(value)
    }

    /// Takes the message at the end: its row, or None where it is undecodable. Where memory is
    /// refused, all is as before.
    pub fn index(&mut self, alloc: Global, row: Option<&Row>) -> Result<(), AllocError>
        requires rows { length self.old.rows < MOST_ROWS }
        requires end { self.old.end.0 < 2 ^ 64 - 1 }
        requires fits { IfSome row (λ row. FitsColumns self.old.columns row.now) }
        requires short { IfSome row (λ row. All IsShort row.now.values) }
        ensures ok { OnOk result (self.new ≡ after_message self.old (option_copied row.entry)) }
        ensures err { OnErr result (self.new ≡ self.old) }
    {
        let Some(row) = row else {
            self.end = after(self.end);
            return Ok(());
        };
        reserve_row(&mut self.offsets)?;
        index_values(alloc, self.columns.as_mut_slice(), row.values.as_slice())?;
        self.offsets.push_reserved(self.end);
        self.end = after(self.end);
        Ok(())
    }

    /// Takes the messages from an offset on back, with their rows. It takes no memory.
    pub fn take_back(&mut self, end: Offset)
        requires after { self.old.start.0 ≤ end.0 }
        requires before { end.0 ≤ self.old.end.0 }
        ensures { self.new ≡ record self.old { rows = filter (is_before end) self.old.rows; end = end } }
    {
        let count = count_below(&self.offsets, end);
        truncate_all(self.columns.as_mut_slice(), count);
        self.offsets.truncate(count);
        self.end = end;
    }
}

/// The offset of the next message.
fn after(offset: Offset) -> Offset
    requires { offset.0 < 2 ^ 64 - 1 }
    ensures { result ≡ next offset }
{
    Offset(offset.0 + 1)
}

/// How many of ascending offsets are earlier ones.
fn count_below(offsets: &[Offset], offset: Offset) -> usize
    requires { AllPairs (λ a b. a.0 < b.0) offsets.now }
    ensures within { result ≤ length offsets.now }
    ensures split { IsPartitionPoint (λ held. nat_lt held.0 offset.0 ≡ true) (λ held. nat_lt held.0 offset.0 ≡ false) offsets.now result }
{
    offsets.partition_point(|held| held.0 < offset.0)
}
