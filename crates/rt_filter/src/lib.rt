//! Predicates: which fit a schema, and which rows meet them.
#![tactic(auto)]

mod checking;
mod comparing;
mod filter_refused;
mod matching;

pub use checking::{check, kind_at};
pub use comparing::{
    accepted, compares, is_one_of, lies_between, number_against, text_against, truth_against,
};
pub use filter_refused::FilterRefused;
pub use matching::{matches, passes};
