use crate::parts::ItemAt;

/// A word that a call of an aggregate begins with.
#[derive(Clone, Copy, Debug, PartialEq, Eq)]
pub(crate) enum Function {
    Count,
    Sum,
    Min,
    Max,
}

/// How far the call of an aggregate has been read; its first byte and its word are.
#[derive(Drop)]
pub(crate) enum Call {
    /// A parenthesis comes.
    Open(u64, Function),
    /// A star or a name comes.
    Argument(u64, Function),
    /// A parenthesis comes, and ends it.
    Close(ItemAt),
}
