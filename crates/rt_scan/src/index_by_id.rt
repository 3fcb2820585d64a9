//! Indices of single ids.
ghost use Rattle.std.specs.Prelude.{[], ◌≡◌, ◌≤◌, length, IfSome, IfNone, OnOk};
ghost use Rattle.rt_scan.specs.IndexById.{IsAt, IsFree, HasNoMore, Notes};

use std::alloc::{AllocError, Global};
use std::marker::Model;

/// The indices of ids, each at its id. Ids are below the number of a segment's rows.
#[derive(Drop)]
pub(crate) struct IndexById {
    indices: Vec<Option<usize>>,
}

impl Model for IndexById {
    ghost use Rattle.std.specs.Prelude.{ℕ, List, Option};

    ghost Value = { List (Option ℕ) };

    ghost view = { λ a. a.indices.items };
}

impl IndexById {
    /// No index is noted yet.
    pub(crate) fn new(alloc: Global) -> IndexById
        ensures { result ≡ [] }
    {
        IndexById {
            indices: Vec::new(alloc),
        }
    }

    /// The index that was noted at an id.
    pub(crate) fn find(&self, id: u32) -> Option<usize>
        ensures some { IfSome result (λ index. IsAt self.now id index) }
        ensures none { IfNone result (IsFree self.now id) }
    {
        match self.indices.get(id as usize) {
            Some(index) => *index,
            None => None,
        }
    }

    /// Notes the index of an id.
    pub(crate) fn note(&mut self, id: u32, index: usize) -> Result<(), AllocError>
        ensures { OnOk result (Notes self.old id index self.new) }
    {
        let place = id as usize;
        make_room(&mut self.indices, place + 1)?;
        self.indices[place] = Some(index);
        Ok(())
    }
}

// Grows a list to a length, if it is shorter.
fn make_room(indices: &mut Vec<Option<usize>>, count: usize) -> Result<(), AllocError>
    ensures more { HasNoMore indices.old.items indices.new.items }
    ensures kept { HasNoMore indices.new.items indices.old.items }
    ensures room { OnOk result (count ≤ length indices.new.items) }
{
    while indices.len() < count {
        indices.push(None)?;
    }
    Ok(())
}
