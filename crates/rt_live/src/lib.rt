//! A running cluster, from bytes to bytes: the input is read, the nodes run by threads until all of it is committed and
//! every query is answered, and the output is written.
#![tactic(auto)]

mod committed;
mod drained;
mod grounding;
mod history;
mod live_end;
mod living;
mod named;
mod output;
mod ran;
mod running;
mod telling;
mod told;
mod words;
mod written;

pub use live_end::LiveEnd;
pub use living::live;
pub use ran::Ran;
pub use running::run;
