//! The tokens of a source text.
#![tactic(auto)]

mod laws;
mod lexing;
mod pieces;
mod token;

pub use laws::{lexes_back, tokens_in_order};
pub use lexing::{LexError, end_of, lex};
pub use token::{Token, TokenKind};
