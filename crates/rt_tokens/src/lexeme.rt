use rt_lists::Text;
use rt_model::Comparison;

/// What a token is.
#[derive(Drop)]
pub enum Lexeme {
    Word(Word),
    /// A plain name that is no word of the grammar, or what stands between double quotes.
    Name(Text),
    /// Digits; None where their number is 2^64 or more.
    Number(Option<u64>),
    /// What stands between single quotes, with one quote for two.
    Text(Text),
    Comparison(Comparison),
    /// Bytes that are no token.
    Unread,
}

/// A word or a sign of the grammar.
#[derive(Clone, Copy, Debug, PartialEq, Eq)]
pub enum Word {
    Select,
    From,
    Where,
    Group,
    By,
    Order,
    Limit,
    Count,
    Sum,
    Min,
    Max,
    Ascending,
    Descending,
    Or,
    And,
    Not,
    Between,
    In,
    True,
    False,
    Comma,
    Open,
    Close,
    Star,
    Minus,
    Semicolon,
}
