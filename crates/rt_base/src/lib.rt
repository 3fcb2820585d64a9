//! The numbers that every part speaks in, and the traits of the outside.
#![tactic(auto)]

mod clock;
mod failed;
mod fault;
mod fault_plan;
mod gate;
mod header;
pub mod limits;
mod memory_sink;
mod memory_source;
mod numbers;
mod open_gate;
mod planned_faults;
mod range;
mod sink;
mod source;
mod std_sink;
mod std_source;
mod step_clock;
mod which;

pub use clock::Clock;
pub use failed::Failed;
pub use fault::Fault;
pub use gate::{Gate, NodeId};
pub use header::Header;
pub use memory_sink::MemorySink;
pub use memory_source::MemorySource;
pub use numbers::{ControllerId, Instance, Moment, Offset, Partition, Sequence};
pub use open_gate::OpenGate;
pub use planned_faults::PlannedFaults;
pub use range::Range;
pub use sink::Sink;
pub use source::Source;
pub use std_sink::StdSink;
pub use std_source::StdSource;
pub use step_clock::StepClock;
pub use which::Which;
