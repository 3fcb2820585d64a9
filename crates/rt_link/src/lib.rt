//! Inboxes: a bounded queue of messages with one owner, and a post for each of its senders.
//!
//! Whatever the threads do, what an owner took of a sender, followed by what is queued of it, is what was accepted of
//! it, in order. A sender that has ended gives its post to the owner, which then knows that it took a beginning of
//! what was accepted of that sender.
#![tactic(auto)]

mod ends;
mod envelope;
mod forever;
mod full;
mod inbox;
mod post;
mod rule;

pub use ends::link;
pub use envelope::Envelope;
pub use forever::never;
pub use full::Full;
pub use inbox::Inbox;
pub use post::Post;
