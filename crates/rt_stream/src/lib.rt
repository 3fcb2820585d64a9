//! The stream: for each partition a log of messages, which only grows.
#![tactic(auto)]

mod feed;
mod laws;
mod message;
mod messages;
mod partition_log;
mod stream_log;

pub use feed::{Feed, FeedRefused};
pub use laws::a_log_only_grows;
pub use message::Message;
pub use messages::Messages;
pub use stream_log::StreamLog;
