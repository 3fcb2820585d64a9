ghost use Rattle.std.specs.Prelude.{OnOk, OnErr};
ghost use Rattle.rt_upsert.specs.Ranked.{IsBlank, IsSame, Puts, Takes, TakesBack, Follows, TellsLast};

use crate::Place;
use crate::held::Held;
use crate::rank::Rank;
use crate::reading::compare_of;
use rt_base::Sequence;
use rt_schema::Row;
use std::alloc::{AllocError, Global};
use std::collections::{BTreeMap, BTreeSet};
use std::ops::Bound;

/// The held rows by their places, and their ranks, in which the rows of a key lie together from the earliest to the latest.
#[derive(Drop)]
pub(crate) struct RankedRows {
    pub(crate) rows: BTreeMap<Place, Held>,
    pub(crate) ranks: BTreeSet<Rank>,
}

impl RankedRows {
    /// No row. It takes no memory yet.
    pub(crate) fn new(alloc: Global) -> RankedRows
        ensures { IsBlank result }
    {
        RankedRows {
            rows: BTreeMap::new(alloc),
            ranks: BTreeSet::new(alloc),
        }
    }

    /// Puts a row at the place of its rank. Where memory runs out, all is as before.
    pub(crate) fn put(&mut self, rank: Rank, row: Row) -> Result<(), AllocError>
        ensures ok { OnOk result (Puts self.old self.new rank row) }
        ensures err { OnErr result (IsSame self.old self.new) }
    {
        let is_new = self.ranks.insert(rank)?;
        let held = Held { row, key: rank.key };
        match self.rows.insert(rank.place, held) {
            Ok(_) => Ok(()),
            Err(_) => {
                take_back(&mut self.ranks, rank, is_new);
                Err(AllocError)
            }
        }
    }

    /// Takes out the row at a place, where there is one, with its rank by the column of comparison.
    pub(crate) fn take(&mut self, compare: usize, place: Place)
        ensures { Takes self.old self.new compare place }
    {
        match self.rows.remove(&place) {
            Some(held) => {
                let rank = Rank {
                    key: held.key,
                    compare: compare_of(compare, &held.row),
                    place,
                };
                self.ranks.remove(&rank);
            }
            None => {}
        }
    }

    /// The place of the first row of a sequence from one on.
    pub(crate) fn first_from(&self, sequence: Sequence, from: u32) -> Option<Place>
        ensures { Follows self.now.rows sequence from result }
    {
        let first = Place {
            sequence,
            row: from,
        };
        match self.rows.range(first..).next() {
            Some((place, _)) => if place.sequence == sequence {
                Some(*place)
            } else {
                None
            },
            None => None,
        }
    }

    /// Whether no rank of the same key is greater than this one.
    pub(crate) fn is_last(&self, rank: Rank) -> bool
        ensures { TellsLast self.now.ranks rank result }
    {
        let above = (Bound::Excluded(rank), Bound::Unbounded);
        match self.ranks.range(above).next() {
            Some(next) => next.key != rank.key,
            None => true,
        }
    }
}

// Takes a rank out again, where it is new.
fn take_back(ranks: &mut BTreeSet<Rank>, rank: Rank, is_new: bool)
    ensures { TakesBack ranks.old ranks.new rank is_new }
{
    if is_new {
        ranks.remove(&rank);
    }
}
