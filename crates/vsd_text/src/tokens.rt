//! Tokens, and the refusals of a text that has none.
ghost use Rattle.std.specs.Prelude.{◌≡◌, ◌≤◌, ◌↔◌, length, IsTrue, slice_range};
ghost use Rattle.vsd_text.specs.declared.tokens.LexError.TheVariants.{Memory};

use std::alloc::{AllocError, AllocFailed};
use thiserror::Error;

/// What a token is.
#[derive(Clone, Copy, Debug, PartialEq, Eq, Drop)]
pub enum TokenKind {
    /// Letters, digits and the bytes `_ $ @ ? .` and the back quote, with no digit first.
    Word,
    /// What stands between two single quotes: bytes from 32 to 126 but the quote and the backslash.
    Quoted,
    /// Such a run as a Word's, with a digit first.
    Number,
    /// What stands between two double quotes. A backslash takes the next byte along.
    Text,
    /// One byte from 33 to 126 that stands in no other token.
    Symbol(u8),
    /// `::`
    Colons,
    /// `%%`
    Percents,
}

impl TokenKind {
    /// Whether such a token may hold line feeds.
    pub(crate) fn may_hold_line_feeds(self) -> bool
        ensures { IsTrue result ↔ (self ≡ TokenKind.Text) }
    {
        match self {
            TokenKind::Text => true,
            _ => false,
        }
    }
}

/// A token: what it is and where it stands. The range of a Quoted or a Text token leaves out its quotes.
#[derive(Clone, Copy, Debug, PartialEq, Eq, Drop)]
pub struct Token {
    pub kind: TokenKind,
    /// The offset of its first byte in the text.
    pub start: u32,
    /// The offset after its last byte.
    pub end: u32,
    /// The number of the line that it begins on, from 1.
    pub line: u32,
}

/// Why a text has no tokens.
#[derive(Clone, Copy, Debug, PartialEq, Eq, Drop, Error)]
pub enum LexError {
    /// A byte on this line that stands in no token or comment and separates none, or that may not
    /// stand in the Quoted token that it is in. Lines are numbered from 1.
    #[error("line {line}: bad byte")]
    BadByte { line: u32 },
    /// A `/*` on this line has no `*/` after it.
    #[error("line {line}: open comment")]
    OpenComment { line: u32 },
    /// A quote on this line isn't closed before a line feed or the end.
    #[error("line {line}: open quote")]
    OpenQuote { line: u32 },
    /// The text has more than 4,194,304 bytes.
    #[error("too long")]
    TooLong,
    /// Want of memory.
    #[error("out of memory")]
    Memory,
}

impl From<AllocError> for LexError {
    ghost from_gives = { λ _ e. e ≡ Memory };

    fn from(_error: AllocError) -> LexError {
        LexError::Memory
    }
}

impl<T: Drop> From<AllocFailed<T>> for LexError {
    ghost from_gives = { λ _ e. e ≡ Memory };

    fn from(_failed: AllocFailed<T>) -> LexError {
        LexError::Memory
    }
}

/// Whether the bytes of the token's range are `word`.
pub fn token_is(text: &[u8], token: &Token, word: &[u8]) -> bool
    requires ordered { token.now.start ≤ token.now.end }
    requires inside { token.now.end ≤ length text.now }
    ensures { IsTrue result ↔ (slice_range text.now token.now.start token.now.end ≡ word.now) }
{
    &text[token.start as usize..token.end as usize] == word
}
