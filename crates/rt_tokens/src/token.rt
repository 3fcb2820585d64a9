use crate::lexeme::Lexeme;

/// A token of a query's text.
#[derive(Drop)]
pub struct Token {
    /// The place in the text of its first byte.
    pub byte: u64,
    pub lexeme: Lexeme,
}
