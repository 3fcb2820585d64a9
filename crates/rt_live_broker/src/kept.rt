/// What became of an answer.
#[derive(Clone, Copy, Debug, PartialEq, Eq)]
pub enum AnswerKept {
    /// It is the first answer to its query.
    First,
    /// It misses nothing and names the whole input, and is the one that is printed.
    Last,
    /// It was let go, and its query is asked again.
    Again,
}
