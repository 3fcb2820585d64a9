//! What happens in a cluster is one: from a world, an event tells one outcome and leads to one world, and what is read of a world is
//! one. All that may lie in more than one way is memory: the order of the groups that are kept of a served piece. Two worlds that
//! differ in no more show the same, and go on showing the same.
//!
//! Each law stands on a function that does nothing: its clause is the law.
#![tactic(auto)]

mod laws;

pub use laws::{
    alike_worlds_are_read_alike, alike_worlds_go_on_alike, an_answer_is_the_worlds,
    an_event_has_one_outcome, each_macro_has_one_outcome, no_event_is_refused_and_happens,
    runs_by_the_same_events_are_one,
};
