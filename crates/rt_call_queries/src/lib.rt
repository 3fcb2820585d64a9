//! The calls that read queries, and those that scan.
#![tactic(auto)]

mod asked;
mod queries;
mod scans;
mod trees;

pub use asked::Asked;
pub use queries::{query, sql, tree};
pub use scans::{merge, scan, skips};
