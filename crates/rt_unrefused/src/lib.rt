//! For what a macro is refused: for want of room alone, once it can begin. The laws are about definitions alone, and stand on functions that do
//! nothing.
#![tactic(auto)]

mod laws;

pub use laws::{
    a_query_is_refused_by_a_limit_alone, a_settle_is_refused_by_a_limit_alone,
    an_exchange_that_begins_is_refused_by_a_limit_alone,
};
