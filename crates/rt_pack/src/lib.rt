//! Ids packed into as few bits as their count needs, one after another, the most significant bit first.
//!
//! A forward index of a sealed segment is such a list of bytes: [`width`] says how many bits an id takes, [`pack`] writes the ids of
//! all rows, [`get`] reads one row without memory, and [`unpack`] reads them all.
#![tactic(auto)]

mod bit_reader;
mod bit_writer;
mod packing;
mod widths;

pub use packing::{get, pack, unpack};
pub use widths::width;
