//! Cuts a text into tokens.
ghost use Rattle.std.specs.Prelude.{◌≡◌, ◌≤◌, ◌<◌, ◌+◌, ◌^◌, [], ◌∷◌, ◌++◌, length, take, drop, IfOk, IfErr, OnOk, All};
ghost use Rattle.vsd_text.specs.Outcome.{Gives};
ghost use Rattle.vsd_text.specs.Tokens.{IsPieceAt, line_feeds, mark_len, token_at, tokens_at, tokens_of, refusal_of, text_limit, LiesWithin};

use crate::bytes::{ByteClass, class_of};
use crate::pieces::{Piece, opened_at, run_at, twin_at};
use crate::tokens::{LexError, Token, TokenKind};
use std::alloc::Global;

/// The most bytes that a text may have.
pub const TEXT_LIMIT: usize = 4_194_304;

// How many line feeds stand in the bytes.
#[tactic(auto, unfolding(crate::specs::Bytes::is_line_feed))]
fn line_feeds(bytes: &[u8]) -> u32
    requires { length bytes.now < 2 ^ 32 }
    ensures { result ≡ line_feeds bytes.now }
{
    let mut count = 0;
    for byte in bytes {
        if *byte == b'\n' {
            count += 1;
        }
    }
    count
}

// How many line feeds stand in the piece at `at`: only comments, separators and Text tokens have any.
fn piece_line_feeds(text: &[u8], at: usize, piece: Piece) -> u32
    requires in_range { at + piece.more < length text.now }
    requires short { length text.now < 2 ^ 32 }
    requires is_piece { IsPieceAt text.now at piece }
    ensures { result ≡ line_feeds (take (piece.more + 1) (drop at text.now)) }
{
    if let Some(kind) = piece.kind {
        if !kind.may_hold_line_feeds() {
            return 0;
        }
    }
    line_feeds(&text[at..at + 1 + piece.more])
}

// How many bytes of the text are its byte order mark.
#[tactic(auto, unfolding(crate::specs::Tokens::mark_len))]
fn mark_len(text: &[u8]) -> usize
    ensures exact { result ≡ mark_len text.now }
    ensures inside { result ≤ length text.now }
{
    if text.starts_with(b"\xEF\xBB\xBF") {
        3
    } else {
        0
    }
}

// The token that begins at `at` on this line and has this many bytes after its first one.
#[tactic(auto, unfolding(crate::specs::Tokens::token_at))]
fn token_at(at: usize, line: u32, kind: TokenKind, more: usize) -> Token
    requires { at + more < 2 ^ 31 }
    ensures { result ≡ token_at at line kind more }
{
    let margin = match kind {
        TokenKind::Quoted | TokenKind::Text => 1,
        _ => 0,
    };
    Token {
        kind,
        start: (at + margin) as u32,
        end: (at + 1 + more - margin) as u32,
        line,
    }
}

// Adds the token, if it is one, of the piece at `at`.
#[tactic(auto, unfolding(crate::specs::Tokens::tokens_at))]
fn push_piece(tokens: &mut Vec<Token>, at: usize, line: u32, piece: Piece) -> Result<(), LexError>
    requires { at + piece.more < 2 ^ 31 }
    ensures ok { OnOk result (tokens.new.items ≡ tokens.old.items ++ tokens_at at line piece) }
    ensures memory { IfErr result (λ e. e ≡ LexError.Memory) }
{
    if let Some(kind) = piece.kind {
        tokens.push(token_at(at, line, kind, piece.more))?;
    }
    Ok(())
}

/// The tokens of `text`, in its order. Letters are A to Z and a to z. A byte order mark at the very start
/// is passed over, and so are tabs, line feeds, carriage returns, spaces, and comments, from `//` to
/// before the next line feed or from `/*` to the next `*/`.
///
/// `TooLong` comes where the text has more than `TEXT_LIMIT` bytes, before all other refusals. Of those
/// the first one in the text comes: for an open comment or quote at its opening, for a bad byte at that
/// byte, which in a Quoted token comes before the open quote. `Memory` is want of memory.
pub fn lex(alloc: Global, text: &[u8]) -> Result<Vec<Token>, LexError>
    ensures exact { Gives (λ tokens. tokens.items) refusal_of result (tokens_of text.now) }
    ensures inside { IfOk result (λ tokens. All (LiesWithin text.now) tokens.items) }
    ensures few { IfOk result (λ tokens. length tokens.items ≤ text_limit) }
{
    if text.len() > TEXT_LIMIT {
        return Err(LexError::TooLong);
    }
    let mut tokens = Vec::new(alloc);
    let mut at = mark_len(text);
    let mut line = 1;
    while at < text.len() {
        match class_of(text[at]) {
            ByteClass::Letter => {
                let piece = run_at(text, at, TokenKind::Word);
                push_piece(&mut tokens, at, line, piece)?;
                at += 1 + piece.more;
            }
            ByteClass::Digit => {
                let piece = run_at(text, at, TokenKind::Number);
                push_piece(&mut tokens, at, line, piece)?;
                at += 1 + piece.more;
            }
            ByteClass::Symbol => {
                let piece = Piece::token(TokenKind::Symbol(text[at]), 0);
                push_piece(&mut tokens, at, line, piece)?;
                at += 1;
            }
            ByteClass::Twin => {
                let piece = twin_at(text, at);
                push_piece(&mut tokens, at, line, piece)?;
                at += 1 + piece.more;
            }
            ByteClass::Space => at += 1,
            ByteClass::LineFeed => {
                at += 1;
                line += 1;
            }
            ByteClass::Opening => {
                let piece = opened_at(text, at, line)?;
                push_piece(&mut tokens, at, line, piece)?;
                line += piece_line_feeds(text, at, piece);
                at += 1 + piece.more;
            }
            ByteClass::Bad => return Err(LexError::BadByte { line }),
        }
    }
    Ok(tokens)
}

#[cfg(test)]
mod tests {
    use super::*;
    use std::fmt::Write;
    use std::test::Fail;

    // The outcome in words: each token's kind and bytes after its line, or the refusal.
    fn shown(alloc: Global, text: &[u8]) -> Result<String, Fail> {
        let mut shown = String::new(alloc);
        match lex(alloc, text) {
            Ok(tokens) => {
                for token in &tokens {
                    let line = token.line;
                    let kind = token.kind;
                    let start = token.start;
                    let end = token.end;
                    write!(shown, "{line} {kind:?} {start}..{end}; ")?;
                }
            }
            Err(refusal) => write!(shown, "{refusal:?}")?,
        }
        Ok(shown)
    }

    #[test]
    fn cuts_texts(rt: HostRuntime) -> Result<(), Fail> {
        let table: [(&[u8], &str); 34] = [
            (b"", ""),
            (b"vsd 1", "1 Word 0..3; 1 Number 4..5; "),
            (
                b".a$`1_@?Z 9z.\n\tb\r",
                "1 Word 0..9; 1 Number 10..13; 2 Word 15..16; ",
            ),
            (
                b"::: %%%",
                "1 Colons 0..2; 1 Symbol(58) 2..3; 1 Percents 4..6; 1 Symbol(37) 6..7; ",
            ),
            (
                b"!~{\\",
                "1 Symbol(33) 0..1; 1 Symbol(126) 1..2; 1 Symbol(123) 2..3; 1 Symbol(92) 3..4; ",
            ),
            (b"\xEF\xBB\xBFa", "1 Word 3..4; "),
            (b"\xEF\xBB", "BadByte { line: 1 }"),
            (b"\xEF\xBB\xBF\xEF\xBB\xBF", "BadByte { line: 1 }"),
            (b"a\n\xEF\xBB\xBF", "BadByte { line: 2 }"),
            (b"a // b \x01 /* ' \" \nc", "1 Word 0..1; 2 Word 17..18; "),
            (b"//", ""),
            (
                b"a / b/c",
                "1 Word 0..1; 1 Symbol(47) 2..3; 1 Word 4..5; 1 Symbol(47) 5..6; 1 Word 6..7; ",
            ),
            (b"/* \n\x00 // ' /* */a", "2 Word 16..17; "),
            (b"/**/a/***/b", "1 Word 4..5; 1 Word 10..11; "),
            (b"/*/ */a", "1 Word 6..7; "),
            (b"/* /* */ */", "1 Symbol(42) 9..10; 1 Symbol(47) 10..11; "),
            (b"\n/*", "OpenComment { line: 2 }"),
            (b"/*/", "OpenComment { line: 1 }"),
            (b"/* \n *", "OpenComment { line: 1 }"),
            (b"'a b' ''x", "1 Quoted 1..4; 1 Quoted 7..7; 1 Word 8..9; "),
            (b"'//' '\"'", "1 Quoted 1..3; 1 Quoted 6..7; "),
            (b"\n'a", "OpenQuote { line: 2 }"),
            (b"'a\n'", "OpenQuote { line: 1 }"),
            (b"'a\\'", "BadByte { line: 1 }"),
            (b"'a\t\n", "BadByte { line: 1 }"),
            (b"'\x7F'", "BadByte { line: 1 }"),
            (b"\"a\x00\xFF'\" b", "1 Text 1..5; 1 Word 7..8; "),
            (b"\"a\\\"b\\\\\" \"\"", "1 Text 1..7; 1 Text 10..10; "),
            (b"\"a\\\nb\"c", "1 Text 1..5; 2 Word 6..7; "),
            (b"\"a\n\"", "OpenQuote { line: 1 }"),
            (b"\"a\\\n\n", "OpenQuote { line: 1 }"),
            (b"\"a\\", "OpenQuote { line: 1 }"),
            (b"\"/*\" \x01 ' /*", "BadByte { line: 1 }"),
            (b"\n' \n \x01", "OpenQuote { line: 2 }"),
        ];
        for (text, expected) in table {
            assert_eq!(rt; shown(rt.alloc(), text)?.as_str(), expected);
        }
        Ok(())
    }

    #[test]
    fn limits_texts(rt: HostRuntime) -> Result<(), Fail> {
        let longest = vec![in rt.alloc(); b' '; TEXT_LIMIT]?;
        assert_eq!(rt; lex(rt.alloc(), &longest)?.len(), 0);
        let too_long = vec![in rt.alloc(); 1; TEXT_LIMIT + 1]?;
        assert_eq!(rt; lex(rt.alloc(), &too_long).err(), Some(LexError::TooLong));
        Ok(())
    }
}
