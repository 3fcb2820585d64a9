use rt_base::Partition;
use rt_stream::Message;

/// A message as it was added to the stream: its partition and its bytes.
#[derive(Drop, PartialEq, Eq)]
pub struct Appended {
    pub partition: Partition,
    pub message: Message,
}
