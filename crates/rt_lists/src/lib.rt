//! The small list types that public structs and enums use in place of `Vec` and `String`.
//!
//! A contract compares a `Vec` by its pointer and its capacity too. `Items`, `Bytes` and `Text` have
//! lists as their values: a struct of them is equal to another exactly where their contents are. Each is
//! made from the type that it replaces, and gives it back, without taking memory.
#![tactic(auto)]

mod bytes;
mod copied;
mod items;
mod names;
mod text;

pub use bytes::Bytes;
pub use copied::Copied;
pub use items::Items;
pub use names::is_among;
pub use text::Text;
