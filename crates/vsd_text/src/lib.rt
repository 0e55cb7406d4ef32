//! The tokens of a text of declarations and scripts.
#![tactic(auto)]

mod bytes;
mod laws;
mod lexer;
mod pieces;
mod tokens;

pub use laws::token_list_law;
pub use lexer::{TEXT_LIMIT, lex};
pub use tokens::{LexError, Token, TokenKind, token_is};
