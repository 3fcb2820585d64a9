use crate::setup::smallest;
use crate::{sharing, turns};
use rt_ground::Blanks;
use std::alloc::{AllocError, Global};
use std::marker::Brand;
use std::sync::Wait;
use std::thread::Threads;

/// The rows over one caller of a fresh ground.
pub fn alone<R: Wait + Copy>(rt: R, alloc: Global) -> Result<Vec<String>, AllocError> {
    let setup = smallest(alloc)?;
    sharing::alone::<R, Brand>(rt, alloc, Blanks::new(alloc)?, &setup)
}

/// The rows over three callers of a fresh ground, each in a thread of its own.
pub fn apart<R: Threads + Wait + Copy + Send + Sync>(
    rt: R,
    alloc: Global,
) -> Result<Vec<String>, AllocError> {
    let setup = smallest(alloc)?;
    sharing::apart::<R, Brand>(rt, alloc, Blanks::new(alloc)?, &setup)
}

/// Two callers of a fresh ground that write in turn, and one that reads.
pub fn in_turn<R: Threads + Wait + Copy + Send + Sync>(
    rt: R,
    alloc: Global,
) -> Result<String, AllocError> {
    let setup = smallest(alloc)?;
    turns::in_turn::<R, Brand>(rt, alloc, Blanks::new(alloc)?, &setup)
}
