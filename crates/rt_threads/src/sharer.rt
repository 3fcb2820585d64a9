use crate::rows::{ends, once, versions};
use rt_ground::{Caller, Naming};
use std::alloc::Global;
use std::sync::Wait;

/// A caller that goes through one of the rows in a thread of its own, and what it was answered.
#[derive(Drop)]
pub struct Sharer<R, J: Naming> {
    pub caller: Caller<R, J>,
    pub heard: String,
}

impl<R: Wait + Copy, J: Naming> Sharer<R, J> {
    /// Goes through the row of this number.
    pub fn run(&mut self, alloc: Global, row: usize) {
        let heard = match row {
            0 => versions(alloc, &mut self.caller.store),
            1 => once(alloc, &mut self.caller.deep),
            _ => ends(alloc, &mut self.caller.stream),
        };
        if let Ok(heard) = heard {
            self.heard = heard;
        }
    }
}
