//! The segments that a server has something to do for.
ghost use Rattle.std.specs.Prelude.{◌≡◌, IfOk};
ghost use Rattle.std.specs.BTreeMap.{IsOrdered};
ghost use Rattle.rt_server.specs.Due.{due_merged, due_of, held_of, left, wanted_of};
ghost use Rattle.rt_server.specs.Table.{segment_cmp};

use crate::Server;
use crate::table::Table;
use rt_base::{Partition, Sequence};
use rt_entry::{Entry, is_due};
use rt_lists::Items;
use rt_model::Mode;
use std::alloc::{AllocError, Global};
use std::cmp::Ordering;
use std::collections::BTreeMap;
use std::collections::btree_map::Iter;

impl Table {
    /// The segments whose transition is due, ascending. Fails only where memory is refused.
    pub(crate) fn due_transits(
        &self,
        alloc: Global,
    ) -> Result<Items<(Partition, Sequence)>, AllocError>
        ensures { IfOk result (λ due. due ≡ due_of self.now) }
    {
        due_merged(alloc, &self.modes, &self.entries)
    }

    /// The segments whose file is wanted, ascending. Fails only where memory is refused.
    pub(crate) fn wanted(&self, alloc: Global) -> Result<Items<(Partition, Sequence)>, AllocError>
        ensures { IfOk result (λ wanted. wanted ≡ wanted_of self.now) }
    {
        let mut wanted = Items::new(alloc);
        for (segment, entry) in self.entries.iter() {
            if entry.wants() {
                wanted.push(*segment)?;
            }
        }
        Ok(wanted)
    }

    /// The segments that have a replica, ascending. Fails only where memory is refused.
    pub(crate) fn held(&self, alloc: Global) -> Result<Items<(Partition, Sequence)>, AllocError>
        ensures { IfOk result (λ held. held ≡ held_of self.now) }
    {
        let mut held = Vec::with_capacity(alloc, self.entries.len())?;
        for (segment, entry) in self.entries.iter() {
            if matches!(entry, Entry::Replica(_)) {
                held.push(*segment)?;
            }
        }
        Ok(Items::of(held))
    }
}

impl Server {
    /// The segments whose transition is due, ascending. Fails only where memory is refused.
    pub fn due_transits(&self, alloc: Global) -> Result<Items<(Partition, Sequence)>, AllocError>
        ensures { IfOk result (λ due. due ≡ due_of self.now.table) }
    {
        self.table.due_transits(alloc)
    }

    /// The segments whose file is wanted, ascending. Fails only where memory is refused.
    pub fn wanted(&self, alloc: Global) -> Result<Items<(Partition, Sequence)>, AllocError>
        ensures { IfOk result (λ wanted. wanted ≡ wanted_of self.now.table) }
    {
        self.table.wanted(alloc)
    }

    /// The segments that have a replica, ascending. Fails only where memory is refused.
    pub fn held(&self, alloc: Global) -> Result<Items<(Partition, Sequence)>, AllocError>
        ensures { IfOk result (λ held. held ≡ held_of self.now.table) }
    {
        self.table.held(alloc)
    }
}

/// The segments that are due by their targets and entries, in one walk of both. Fails only where memory is refused.
fn due_merged(
    alloc: Global,
    modes: &BTreeMap<(Partition, Sequence), Mode>,
    entries: &BTreeMap<(Partition, Sequence), Entry>,
) -> Result<Items<(Partition, Sequence)>, AllocError>
    ensures merged { IfOk result (λ due. due ≡ due_merged modes.now.entries entries.now.entries) }
    ensures ordered { IsOrdered segment_cmp modes.now × IsOrdered segment_cmp entries.now }
{
    let mut due = Items::new(alloc);
    let mut targets = modes.iter();
    let mut others = entries.iter();
    let mut target = next(&mut targets);
    let mut entry = next(&mut others);
    loop {
        match (target, entry) {
            (None, None) => return Ok(due),
            (None, Some((segment, _))) => {
                due.push(*segment)?;
                entry = next(&mut others);
            }
            (Some((segment, mode)), None) => {
                if is_due(*mode, None) {
                    due.push(*segment)?;
                }
                target = next(&mut targets);
            }
            (Some((segment, mode)), Some((other, found))) => match segment.cmp(other) {
                Ordering::Less => {
                    if is_due(*mode, None) {
                        due.push(*segment)?;
                    }
                    target = next(&mut targets);
                }
                Ordering::Equal => {
                    if is_due(*mode, Some(found)) {
                        due.push(*segment)?;
                    }
                    target = next(&mut targets);
                    entry = next(&mut others);
                }
                Ordering::Greater => {
                    due.push(*other)?;
                    entry = next(&mut others);
                }
            },
        }
    }
}

/// The next of what is left of a walk.
#[tactic(auto, using(crate::proofs::Merge::next_left))]
fn next<'a, V>(
    rest: &mut Iter<'a, (Partition, Sequence), V>,
) -> Option<(&'a (Partition, Sequence), &'a V)>
    ensures { left result rest.new ≡ rest.old }
{
    rest.next()
}
