//! The groups of ids that were met.
ghost use Rattle.std.specs.Prelude.{◌≡◌, ◌++◌, ◌∷◌, [], IfSome, IfNone, OnOk};
ghost use Rattle.std.specs.List.{Contains};
ghost use Rattle.rt_scan.specs.GroupIds.{IsAbsent};
ghost use Rattle.rt_scan.specs.IndexById.{IsAt, IsFree, Notes};

use crate::index_by_id::IndexById;
use indexmap::IndexMap;
use rt_lists::Items;
use std::alloc::{AllocError, Global};
use std::marker::Model;

/// For the ids of a row's group columns the index of its group. Where there is one such column, its id alone is kept, and is
/// found without a hash.
#[derive(Drop)]
pub(crate) struct GroupIds {
    indices: IndexMap<Items<u32>, usize>,
    by_id: IndexById,
}

impl Model for GroupIds {
    ghost use Rattle.rt_scan.specs.GroupIds.{Met};

    ghost Value = { Met };

    ghost view = { λ g. record { by_ids = g.indices.entries; by_id = g.by_id } };
}

impl GroupIds {
    /// No ids were met yet.
    pub(crate) fn new(alloc: Global) -> GroupIds
        ensures { result ≡ record { by_ids = []; by_id = [] } }
    {
        GroupIds {
            indices: IndexMap::new(alloc),
            by_id: IndexById::new(alloc),
        }
    }

    /// The index that was noted for one id alone.
    pub(crate) fn find_one(&self, id: u32) -> Option<usize>
        ensures some { IfSome result (λ index. IsAt self.now.by_id id index) }
        ensures none { IfNone result (IsFree self.now.by_id id) }
    {
        self.by_id.find(id)
    }

    /// The index that was noted for ids.
    pub(crate) fn find(&self, ids: &Items<u32>) -> Option<usize>
        ensures some { IfSome result (λ index. Contains self.now.by_ids (ids.now, index)) }
        ensures none { IfNone result (IsAbsent self.now.by_ids ids.now) }
    {
        match self.indices.get_full(ids) {
            Some((_at, _ids, index)) => Some(*index),
            None => None,
        }
    }

    /// Notes the index of ids for which none is noted.
    pub(crate) fn note(&mut self, ids: Items<u32>, index: usize) -> Result<(), AllocError>
        requires { IsAbsent self.old.by_ids ids }
        ensures { OnOk result (self.new ≡ record self.old { by_ids = self.old.by_ids ++ (ids, index) ∷ [] }) }
    {
        self.indices.insert(ids, index)?;
        Ok(())
    }

    /// Notes the index of one id alone.
    pub(crate) fn note_one(&mut self, id: u32, index: usize) -> Result<(), AllocError>
        ensures noted { OnOk result (Notes self.old.by_id id index self.new.by_id) }
        ensures same { self.new.by_ids ≡ self.old.by_ids }
    {
        self.by_id.note(id, index)
    }
}
