ghost use Rattle.std.specs.Prelude.{IfOk, OnOk};
ghost use Rattle.rt_live_join.specs.Parted.{AddsNode, HasNone};

use rt_ground::{Caller, Naming};
use rt_live_links::NodeLinks;
use std::alloc::{AllocError, Global};

/// What the nodes of one kind had, by their numbers.
#[derive(Drop)]
pub(crate) struct Parts<R, J: Naming, X> {
    pub(crate) callers: Vec<Caller<R, J>>,
    pub(crate) links: Vec<NodeLinks>,
    /// What only nodes of this kind have.
    pub(crate) own: Vec<X>,
}

impl<R: Copy, J: Naming, X: Drop> Parts<R, J, X> {
    /// Those of no node yet, with room for so many. Fails only where memory is refused.
    pub(crate) fn with_room(alloc: Global, nodes: usize) -> Result<Self, AllocError>
        ensures { IfOk result HasNone }
    {
        Ok(Parts {
            callers: Vec::with_capacity(alloc, nodes)?,
            links: Vec::with_capacity(alloc, nodes)?,
            own: Vec::with_capacity(alloc, nodes)?,
        })
    }

    /// Adds those of one node more. Fails only where memory is refused.
    pub(crate) fn add(
        &mut self,
        caller: Caller<R, J>,
        links: NodeLinks,
        own: X,
    ) -> Result<(), AllocError>
        ensures { OnOk result (AddsNode self.old self.new caller links own) }
    {
        self.callers.push(caller)?;
        self.links.push(links)?;
        self.own.push(own)?;
        Ok(())
    }
}
