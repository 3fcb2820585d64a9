/// Why an envelope was not accepted: the queue was full at some moment of the call.
#[derive(Clone, Copy, Debug, PartialEq, Eq)]
pub struct Full;
