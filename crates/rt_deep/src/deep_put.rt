use rt_lists::{Bytes, Text};

/// A file as it was put: its path and its bytes.
#[derive(Drop, PartialEq, Eq)]
pub struct DeepPut {
    pub path: Text,
    pub bytes: Bytes,
}
