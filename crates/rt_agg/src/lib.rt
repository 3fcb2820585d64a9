//! Aggregates of rows, group by group.
//!
//! [`Groups`] takes rows one by one, or what other groups took, and gives the result rows of its query. A scan that knows the
//! groups of rows by other means than their values adds a page of them at a time, each row by the index of its group: then each
//! item of the query takes the whole page, and reads its column through [`ReadTable`].
#![tactic(auto)]

mod all_holders;
mod compare;
mod counting;
mod foremost;
mod greatest_scalars;
mod group_cells;
mod group_key;
mod group_keys;
mod group_ref;
mod group_table;
mod groups;
mod keeping;
mod key_column;
mod keys;
mod laws;
mod least_scalars;
mod merging;
mod pick_refused;
mod picking;
mod placed_row;
mod placing;
mod ranging;
mod ranked;
mod read_table;
mod result_holder;
mod scalar;
mod served;
mod shared_holders;
mod sharing;
mod take_scalar;
mod total;
mod totalling;
mod totals;
mod value_ref;

pub use group_key::GroupKey;
pub use groups::Groups;
pub use laws::rows_fit;
pub use pick_refused::PickRefused;
pub use placed_row::PlacedRow;
pub use read_table::ReadTable;
pub use scalar::Scalar;
pub use served::Served;
pub use take_scalar::{TakeScalar, take_same};
pub use total::Total;
pub use value_ref::ValueRef;
