//! The tokens of a query's text, and the numbers that their digits stand for.
#![tactic(auto)]

mod content;
mod lexeme;
mod lexer;
mod literals;
mod signs;
mod token;
mod words;

pub use lexeme::{Lexeme, Word};
pub use lexer::tokens_of;
pub use literals::{rows, rows_or_none, whole, whole_or_zero};
pub use token::Token;
