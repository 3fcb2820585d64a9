//! What lines of calls are written in: the words that a call is given, and the text of its answer.
//!
//! Both note the first fault and go on, so that a call reads all of its words and looks once.
#![tactic(auto)]

mod answer;
mod segment;
mod stop;
mod words;

pub use answer::Answer;
pub use segment::Segment;
pub use stop::Stop;
pub use words::Words;
