//! A piece is written whole to a sink that may take less than it is offered.
#![tactic(auto)]

mod writing;

pub use writing::write_all;
