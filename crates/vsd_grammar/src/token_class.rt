//! The class of a token.
use crate::keyword::Keyword;

/// The class of the token at hand. A quoted name is never a word of the grammar.
#[derive(Clone, Copy, Debug, PartialEq, Eq, Drop)]
pub enum TokenClass {
    /// There is no token left.
    End,
    /// A Word that doesn't begin with a point.
    Word(Keyword),
    /// A Word that begins with a point.
    Directive(Keyword),
    /// What stands between two single quotes.
    Quoted,
    /// Letters, digits and the bytes that a Word may have, with a digit first.
    Number,
    /// What stands between two double quotes.
    Text,
    /// A byte from 33 to 126 that stands in no other token.
    Symbol(u8),
    /// `::`
    Colons,
    /// `%%`
    Percents,
}
