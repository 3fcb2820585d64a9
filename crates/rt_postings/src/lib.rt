//! Posting lists and sets of rows.
//!
//! [`Postings`] has for each id of a column the rows that have it, and [`DocSet`] is a set of rows of one segment: a filter collects
//! the rows of each predicate in such sets, joins them, and walks what is left by [`DocSet::next_from`].
#![tactic(auto)]

mod doc_set;
mod doc_words;
mod posting_runs;
mod postings;

pub use doc_set::DocSet;
pub use postings::Postings;
