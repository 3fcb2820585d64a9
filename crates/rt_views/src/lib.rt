//! Answers over the present plans of a world: over the latest rows of an upsert table, and over both sides of a hybrid table.
//!
//! What a plan's pieces are served is a function of the world's state; no view changes a world.
#![tactic(auto)]

mod found;
mod hybrid_view;
mod latest_view;
mod laws;
mod naming;
mod ranges;
mod room;
mod rows;
mod serving;
mod view;
mod viewing;

pub use found::Found;
pub use hybrid_view::hybrid;
pub use latest_view::latest;
pub use laws::{
    a_hybrid_answer_is_right, a_latest_answer_is_right, a_view_has_each_piece_of_its_plan,
    no_view_leaves_out_what_is_served,
};
pub use view::View;
