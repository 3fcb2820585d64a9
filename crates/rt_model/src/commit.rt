use rt_base::Offset;
use rt_lists::Text;

/// What a commit says of its segment.
#[derive(Drop, PartialEq, Eq)]
pub struct Commit {
    /// The offset past the last message.
    pub end: Offset,
    /// Where the file stands in the deep store.
    pub path: Text,
    /// The file's SHA-256.
    pub digest: [u8; 32],
    /// The number of the file's rows.
    pub rows: u32,
}
