ghost use Rattle.std.specs.Prelude.{◌≡◌, ◌<◌, ◌-◌, [], ◌∷◌, ◌++◌, Some, true, length, take, slice_get, IfOk, OnOk, OnErr};
ghost use Rattle.rt_schema.specs.Value.{kind_of};
ghost use Rattle.rt_mutable.specs.Arrivals.{arrivals_of, ids_of};
ghost use Rattle.rt_mutable.specs.Column.{same_value, values_in, kind_in};
ghost use Rattle.rt_mutable.specs.RowLists.{numbers_where};
ghost use Rattle.rt_mutable.specs.Columns.{cut};

use crate::ColumnValues;
use crate::row_lists::{RowLists, forget_row, note_row, rows_at};
use rt_base::limits::MOST_ROWS;
use rt_lists::{Items, Text};
use rt_schema::{Kind, Value};
use std::alloc::{AllocError, Global};
use std::marker::Model;

/// A column of a consuming segment, with the values of its rows. An indexed one also keeps the rows
/// of each value.
#[derive(Drop)]
pub struct MutableColumn {
    name: Text,
    values: ColumnValues,
    docs: Option<RowLists>,
}

impl Model for MutableColumn {
    ghost use Rattle.std.specs.Prelude.{is_some};
    ghost use Rattle.rt_mutable.specs.Column.{Filled, values_in, kind_in};
    ghost use Rattle.rt_mutable.specs.Index.{IsIndex};

    ghost Value = { Filled };

    ghost view = { λ a. record {
      shape = record { name = a.name; kind = kind_in a.values; indexed = is_some a.docs };
      values = values_in a.values;
    } };

    ghost invariant = { λ a. IsIndex a.docs (values_in a.values) };
}

impl MutableColumn {
    /// A column with no row. It takes no memory yet.
    pub(crate) fn new(alloc: Global, name: Text, kind: Kind, indexed: bool) -> MutableColumn
        ensures { result ≡ record { shape = record { name = name; kind = kind; indexed = indexed }; values = [] } }
    {
        let docs = if indexed {
            Some(Items::new(alloc))
        } else {
            None
        };
        MutableColumn {
            name,
            values: ColumnValues::new(alloc, kind),
            docs,
        }
    }

    pub fn name(&self) -> &Text
        ensures { result.now ≡ self.now.shape.name }
    {
        &self.name
    }

    /// The kind of the values.
    pub fn kind(&self) -> Kind
        ensures { result ≡ self.now.shape.kind }
    {
        self.values.kind()
    }

    /// Whether the rows of each value are kept.
    pub fn is_indexed(&self) -> bool
        ensures { result ≡ self.now.shape.indexed }
    {
        self.docs.is_some()
    }

    /// The values row by row, by their kind.
    pub fn values(&self) -> &ColumnValues
        ensures kind { kind_in result.now ≡ self.now.shape.kind }
        ensures values { values_in result.now ≡ self.now.values }
    {
        &self.values
    }

    /// The id of each row's value: its place among the distinct values in the order of their first
    /// arrival.
    pub fn ids(&self) -> &[u32]
        ensures { result.now ≡ ids_of same_value self.now.values }
    {
        self.values.ids()
    }

    /// The number of distinct values. Ids are below it.
    pub fn len(&self) -> usize
        ensures { result ≡ length (arrivals_of same_value self.now.values) }
    {
        self.values.len()
    }

    /// A copy of the value with an id. Fails only where memory is refused.
    pub fn value(&self, alloc: Global, id: u32) -> Result<Value, AllocError>
        requires { id < length (arrivals_of same_value self.now.values) }
        ensures { IfOk result (λ value. slice_get (arrivals_of same_value self.now.values) id ≡ Some value) }
    {
        self.values.value(alloc, id)
    }

    /// A copy of the value of a row, by its number. Fails only where memory is refused.
    pub fn value_in(&self, alloc: Global, row: u32) -> Result<Value, AllocError>
        requires { row < length self.now.values }
        ensures { IfOk result (λ value. slice_get self.now.values row ≡ Some value) }
    {
        self.values.value(alloc, self.values.ids()[row as usize])
    }

    /// The numbers of the rows with a value, ascending. It takes no memory.
    pub fn docs_equal(&self, value: &Value) -> &[u32]
        requires indexed { self.now.shape.indexed ≡ true }
        requires kind { kind_of value.now ≡ self.now.shape.kind }
        ensures { result.now ≡ numbers_where (same_value value.now) self.now.values }
    {
        match &self.docs {
            Some(lists) => rows_at(lists, self.values.id_of(value)),
            None => unreachable!(),
        }
    }

    /// Adds a row with a value. Where memory is refused, all is as before.
    pub(crate) fn index(&mut self, alloc: Global, value: &Value) -> Result<(), AllocError>
        requires kind { kind_of value.now ≡ self.old.shape.kind }
        requires room { length self.old.values < MOST_ROWS }
        ensures ok { OnOk result (self.new ≡ record self.old { values = self.old.values ++ value.now ∷ [] }) }
        ensures err { OnErr result (self.new ≡ self.old) }
    {
        let row = self.values.rows() as u32;
        let id = self.values.push(alloc, value)?;
        match note_row(alloc, &mut self.docs, id, row) {
            Ok(()) => Ok(()),
            Err(refused) => {
                self.values.take_back();
                Err(refused)
            }
        }
    }

    /// Takes the last row back.
    pub(crate) fn take_back(&mut self)
        requires { 0 < length self.old.values }
        ensures { self.new ≡ record self.old { values = take (length self.old.values - 1) self.old.values } }
    {
        let ids = self.values.ids();
        let id = ids[ids.len() - 1];
        self.values.take_back();
        forget_row(&mut self.docs, id, self.values.len());
    }

    /// Takes the rows from a number on back.
    #[tactic(auto, using(crate::proofs::Cut::cut_again, crate::proofs::Cut::cut_whole))]
    pub(crate) fn truncate(&mut self, rows: usize)
        ensures { self.new ≡ cut rows self.old }
    {
        while self.values.rows() > rows {
            self.take_back();
        }
    }
}
