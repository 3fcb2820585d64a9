ghost use Rattle.std.specs.Prelude.{◌≡◌, ◌+◌, ◌<◌, ◌≤◌, map, length, filter, false, IfOk, OnOk, OnErr};
ghost use Rattle.rt_schema.specs.Value.{kind_of};
ghost use Rattle.rt_model.specs.Aggregate.{taken};
ghost use Rattle.rt_upsert.specs.Index.{rank_of};
ghost use Rattle.rt_upsert.specs.Ranked.{TellsLast};
ghost use Rattle.rt_agg.specs.Grouped.{Holds};
ghost use Rattle.rt_upconf.specs.Upsert.{IsUpsertConfig};
ghost use Rattle.rt_upsert.specs.Latest.{start_of, compare_of, latest_of, rows_in, place_of};
ghost use Rattle.rt_upsert.specs.Placed.{is_held, is_out, with_row, IsQueryOver};
ghost use Rattle.rt_upsert.specs.Answer.{AddsIf};
ghost use Rattle.rt_upsert.specs.Changes.{Adds, IsNext, left, without_row};

use crate::held::Held;
use crate::rank::Rank;
use crate::ranked_rows::RankedRows;
use crate::reading::{compare_of, key_of, place_of};
use crate::{AddRefused, Place};
use indexmap::IndexSet;
use rt_agg::Groups;
use rt_base::Sequence;
use rt_filter::passes;
use rt_lists::{Copied, Items, Text};
use rt_model::Query;
use rt_schema::{Column, Kind, Row, Schema, Value};
use rt_upconf::UpsertConfig;
use std::alloc::{AllocError, Global};
use std::marker::Model;

/// The rows of an upsert table with their places, of which the latest of each key counts.
///
/// Contracts see the rows by ascending place. A key keeps its number for good; the ranks of the held rows say at any time
/// which row of a key is the latest, so that a row that a dropped one had hidden is seen again.
#[derive(Drop)]
pub struct Upsert {
    kinds: Items<Kind>,
    keys: Items<usize>,
    compare: usize,
    numbers: IndexSet<Items<Value>>,
    held: RankedRows,
}

impl Model for Upsert {
    ghost use Rattle.std.specs.Prelude.{map};
    ghost use Rattle.rt_upsert.specs.Placed.{PlacedRows};
    ghost use Rattle.rt_upsert.specs.Index.{placed, IsIndexed};

    ghost Value = { PlacedRows };

    ghost view = { λ a. record { kinds = a.kinds; keys = a.keys; compare = a.compare; rows = map placed a.held.rows.entries } };

    ghost invariant = { λ a. IsIndexed a.kinds a.keys a.compare a.numbers.keys a.held.rows a.held.ranks };
}

impl Upsert {
    /// No row, for the settings of a schema. Fails only where memory is refused.
    pub fn make(alloc: Global, schema: &Schema, config: &UpsertConfig) -> Result<Upsert, AllocError>
        requires { IsUpsertConfig schema.now config.now }
        ensures { IfOk result (λ upsert. upsert ≡ start_of schema.now config.now) }
    {
        let columns = schema.columns.as_slice();
        let kinds = kinds_of(alloc, columns)?;
        let keys = places_of(alloc, config.keys.as_slice(), columns)?;
        let compare = place_of(config.compare.as_str(), columns);
        Ok(Upsert {
            kinds,
            keys,
            compare,
            numbers: IndexSet::new(alloc),
            held: RankedRows::new(alloc),
        })
    }

    /// Adds a row of the schema at a place; places come in any order. It is refused where a row is held at that place. Where
    /// memory runs out, all is as before. The memory of a key is never given back: its number stays for rows to come, also
    /// where the row is then refused memory, and where all of the key's rows are taken out.
    pub fn add(&mut self, alloc: Global, place: Place, row: &Row) -> Result<(), AddRefused>
        requires kinds { map kind_of row.now.values ≡ self.old.kinds }
        requires row { place.row < 4294967295 }
        requires few { length self.old.rows + 1 < 9223372036854775808 }
        ensures { Adds self.old self.new place row.now result }
    {
        if self.holds(place) {
            return Err(AddRefused::Taken(place));
        }
        self.put(alloc, place, row)?;
        Ok(())
    }

    /// Drops the rows of a sequence from one on, and gives how many these are. A row that one of them had hidden is seen
    /// again. It takes no memory.
    pub fn take_out(&mut self, sequence: Sequence, from: u32) -> u32
        ensures rows { self.new ≡ left sequence from self.old }
        ensures count { result ≡ length (filter (is_out sequence from) self.old.rows) }
    {
        let mut count = 0;
        let mut next = self.first_from(sequence, from);
        while let Some(place) = next {
            self.take(place);
            count += 1;
            next = self.first_from(sequence, from);
        }
        count
    }

    /// Whether the latest row of its key is held at a place.
    pub fn latest(&self, place: Place) -> bool
        ensures { result ≡ is_held place (latest_of self.now) }
    {
        match self.held.rows.get(&place) {
            Some(held) => is_latest(&self.held, self.compare, place, held),
            None => false,
        }
    }

    /// The groups of the latest rows that a query takes, a query over the schema. Fails only where memory is refused.
    pub fn answer(&self, alloc: Global, query: &Query) -> Result<Groups, AllocError>
        requires { IsQueryOver self.now.kinds query.now }
        ensures { IfOk result (Holds query.now (taken query.now (rows_in (latest_of self.now)))) }
    {
        let mut groups = Groups::make(alloc, query)?;
        for (place, held) in &self.held.rows {
            let is_shown = is_latest(&self.held, self.compare, *place, held);
            add_if(alloc, &mut groups, query, &held.row, is_shown)?;
        }
        Ok(groups)
    }

    // Whether a row is held at a place.
    fn holds(&self, place: Place) -> bool
        ensures { result ≡ is_held place self.now.rows }
    {
        self.held.rows.contains_key(&place)
    }

    // Puts a row at a place at which none is held.
    fn put(&mut self, alloc: Global, place: Place, row: &Row) -> Result<(), AllocError>
        requires kinds { map kind_of row.now.values ≡ self.old.kinds }
        requires row { place.row < 4294967295 }
        requires free { is_held place self.old.rows ≡ false }
        ensures ok { OnOk result (self.new ≡ with_row self.old place row.now) }
        ensures err { OnErr result (self.new ≡ self.old) }
    {
        let key = key_of(alloc, self.keys.as_slice(), row)?;
        let copy = row.copied(alloc)?;
        let (key, _) = self.numbers.insert_full(key)?;
        let rank = rank_at(self.compare, key, place, row);
        self.held.put(rank, copy)?;
        Ok(())
    }

    // The place of the first row of a sequence from one on.
    fn first_from(&self, sequence: Sequence, from: u32) -> Option<Place>
        ensures next { IsNext self.now.rows sequence from result }
        ensures few { length (filter (is_out sequence from) self.now.rows) ≤ 4294967295 }
    {
        self.held.first_from(sequence, from)
    }

    // Takes out the row at a place.
    fn take(&mut self, place: Place)
        ensures { self.new ≡ without_row place self.old }
    {
        self.held.take(self.compare, place);
    }
}

// The rank of a row by the number of its key.
fn rank_at(compare: usize, key: usize, place: Place, row: &Row) -> Rank
    ensures key { result.key ≡ key }
    ensures compare { result.compare ≡ compare_of compare row.now }
    ensures place { result.place ≡ place }
{
    Rank {
        key,
        compare: compare_of(compare, row),
        place,
    }
}

// Whether no held row of the same key is later than this one.
fn is_latest(rows: &RankedRows, compare: usize, place: Place, held: &Held) -> bool
    ensures { TellsLast rows.now.ranks (rank_of compare place held.now) result }
{
    rows.is_last(Rank {
        key: held.key,
        compare: compare_of(compare, &held.row),
        place,
    })
}

// Adds a row to groups of a query, where it is to be shown and the query takes it.
fn add_if(
    alloc: Global,
    groups: &mut Groups,
    query: &Query,
    row: &Row,
    is_shown: bool,
) -> Result<(), AllocError>
    ensures { OnOk result (AddsIf is_shown query.now row.now groups.old groups.new) }
{
    if is_shown && passes(&query.filter, row) {
        groups.add_row(alloc, row)?;
    }
    Ok(())
}

fn kinds_of(alloc: Global, columns: &[Column]) -> Result<Items<Kind>, AllocError>
    ensures { IfOk result (λ kinds. kinds ≡ map (λ column. column.kind) columns.now) }
{
    let mut kinds = Items::new(alloc);
    for column in columns {
        kinds.push(column.kind)?;
    }
    Ok(kinds)
}

fn places_of(alloc: Global, names: &[Text], columns: &[Column]) -> Result<Items<usize>, AllocError>
    ensures { IfOk result (λ places. places ≡ map (λ name. place_of name columns.now) names.now) }
{
    let mut places = Items::new(alloc);
    for name in names {
        places.push(place_of(name.as_str(), columns))?;
    }
    Ok(places)
}
