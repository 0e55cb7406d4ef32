//! What a text is cut into: tokens and what stands between them.
ghost use Rattle.std.specs.Prelude.{◌≡◌, ◌≢◌, ◌+◌, ◌<◌, ◌≤◌, ℕ, false, length, drop, IfOk, IsTrue, slice_index};
ghost use Rattle.std.specs.List.{prefix_len};
ghost use Rattle.vsd_text.specs.Bytes.{is_run_byte, is_twin, is_opening};
ghost use Rattle.vsd_text.specs.Tokens.{first_piece, twin_or_symbol, slash_piece, closed_by, text_len, comment_len, begins_with, IsOneLineToken};

use crate::bytes::{ByteTest, LineByte, QuotedByte, RunByte};
use crate::tokens::{LexError, TokenKind};

/// A token, or bytes between tokens, at a place of a text.
#[derive(Clone, Copy)]
pub(crate) struct Piece {
    /// What the token is; None between tokens.
    pub kind: Option<TokenKind>,
    /// How many bytes it has after its first one.
    pub more: usize,
}

impl Piece {
    fn gap(more: usize) -> Piece
        ensures { result ≡ record { kind = None; more = more } }
    {
        Piece { kind: None, more }
    }

    pub(crate) fn token(kind: TokenKind, more: usize) -> Piece
        ensures { result ≡ record { kind = Some kind; more = more } }
    {
        Piece {
            kind: Some(kind),
            more,
        }
    }
}

// How many bytes from `at` on pass the test.
fn passing_len<T: ByteTest>(text: &[u8], at: usize) -> usize
    requires { at ≤ length text.now }
    ensures exact { result ≡ prefix_len T.passes (drop at text.now) }
    ensures inside { at + result ≤ length text.now }
{
    let mut end = at;
    while end < text.len() && T::passes(text[end]) {
        end += 1;
    }
    end - at
}

/// The run of letters and digits that begins at `at`, as a token of this kind.
pub(crate) fn run_at(text: &[u8], at: usize, kind: TokenKind) -> Piece
    requires { at < length text.now }
    ensures exact { result ≡ record { kind = Some kind; more = prefix_len is_run_byte (drop (at + 1) text.now) } }
    ensures inside { at + result.more < length text.now }
{
    Piece::token(kind, passing_len::<RunByte>(text, at + 1))
}

// How many bytes the one at `at` takes in a Text token: a backslash takes the next one along.
#[tactic(auto, unfolding(crate::specs::Tokens::text_len))]
fn taken_len(text: &[u8], at: usize) -> usize
    requires in_range { at < length text.now }
    requires no_quote { slice_index text.now at ≢ 34 }
    requires no_line_feed { slice_index text.now at ≢ 10 }
    ensures exact { text_len false (drop at text.now) ≡ result + text_len false (drop (at + result) text.now) }
    ensures inside { at + result ≤ length text.now }
    ensures positive { 0 < result }
{
    if text[at] == b'\\' {
        escape_len(text, at)
    } else {
        1
    }
}

// The same of a backslash. It stands apart, so that the loop over a Text token stays short.
#[inline(never)]
#[tactic(auto, unfolding(crate::specs::Tokens::text_len))]
fn escape_len(text: &[u8], at: usize) -> usize
    requires in_range { at < length text.now }
    requires is_backslash { slice_index text.now at ≡ 92 }
    ensures exact { text_len false (drop at text.now) ≡ result + text_len false (drop (at + result) text.now) }
    ensures inside { at + result ≤ length text.now }
    ensures positive { 0 < result }
{
    if at + 1 < text.len() { 2 } else { 1 }
}

// How many bytes from `at` on stand before the double quote or the line feed that ends a Text token.
#[tactic(auto, unfolding(crate::specs::Tokens::text_len))]
fn text_len(text: &[u8], at: usize) -> usize
    requires { at ≤ length text.now }
    ensures exact { result ≡ text_len false (drop at text.now) }
    ensures inside { at + result ≤ length text.now }
{
    let mut end = at;
    while end < text.len() && text[end] != b'"' && text[end] != b'\n' {
        end += taken_len(text, end);
    }
    end - at
}

// Whether a `/` stands at `at`. It stands apart, so that the loop over a comment stays short.
#[inline(never)]
fn is_slash_at(text: &[u8], at: usize) -> bool
    requires { at ≤ length text.now }
    ensures exact { result ≡ begins_with 47 (drop at text.now) }
    ensures inside { IsTrue result → at < length text.now }
{
    at < text.len() && text[at] == b'/'
}

// How many bytes from `at` on stand before the first `*/`.
#[tactic(auto, unfolding(crate::specs::Tokens::comment_len))]
fn comment_len(text: &[u8], at: usize) -> usize
    requires { at ≤ length text.now }
    ensures exact { result ≡ comment_len (drop at text.now) }
    ensures inside { at + result ≤ length text.now }
    ensures closed { at + result < length text.now → at + result + 1 < length text.now }
{
    let mut end = at;
    while end < text.len() && !(text[end] == b'*' && is_slash_at(text, end + 1)) {
        end += 1;
    }
    end - at
}

// The token between the quote at `at` and the next one, with this many bytes between them.
#[tactic(auto, unfolding(crate::specs::Tokens::closed_by))]
fn quote_at(
    text: &[u8],
    at: usize,
    len: usize,
    kind: TokenKind,
    line: u32,
) -> Result<Piece, LexError>
    requires { at + 1 + len ≤ length text.now }
    ensures exact { result ≡ closed_by (slice_index text.now at) kind line len (drop (at + 1 + len) text.now) }
    ensures inside { IfOk result (λ piece. at + piece.more < length text.now) }
{
    let end = at + 1 + len;
    if end == text.len() {
        Err(LexError::OpenQuote { line })
    } else if text[end] == text[at] {
        Ok(Piece::token(kind, len + 1))
    } else if text[end] == b'\n' {
        Err(LexError::OpenQuote { line })
    } else {
        Err(LexError::BadByte { line })
    }
}

// The comment or the Symbol that begins with the `/` at `at`.
#[tactic(auto, unfolding(crate::specs::Tokens::slash_piece, crate::specs::Tokens::closed_comment))]
fn slash_at(text: &[u8], at: usize, line: u32) -> Result<Piece, LexError>
    requires { at < length text.now }
    ensures exact { result ≡ slash_piece line (drop (at + 1) text.now) }
    ensures inside { IfOk result (λ piece. at + piece.more < length text.now) }
{
    let next = at + 1;
    if next < text.len() && text[next] == b'/' {
        return Ok(Piece::gap(passing_len::<LineByte>(text, next + 1) + 1));
    }
    if next < text.len() && text[next] == b'*' {
        let len = comment_len(text, next + 1);
        if next + 1 + len == text.len() {
            return Err(LexError::OpenComment { line });
        }
        return Ok(Piece::gap(len + 3));
    }
    Ok(Piece::token(TokenKind::Symbol(b'/'), 0))
}

// The one-byte Symbol at `at`, or the token of two such bytes where the next byte is the same.
#[tactic(auto, unfolding(crate::specs::Tokens::twin_or_symbol))]
fn twin_or_symbol(text: &[u8], at: usize, twin: TokenKind) -> Piece
    requires in_range { at < length text.now }
    requires one_line { twin ≢ TokenKind.Text }
    ensures exact { Ok result ≡ twin_or_symbol twin (slice_index text.now at) (drop (at + 1) text.now) }
    ensures inside { at + result.more < length text.now }
    ensures one_line { IsOneLineToken result }
{
    let byte = text[at];
    if at + 1 < text.len() && text[at + 1] == byte {
        Piece::token(twin, 1)
    } else {
        Piece::token(TokenKind::Symbol(byte), 0)
    }
}

/// The token that begins with the `:` or `%` at `at`.
#[tactic(auto, unfolding(crate::specs::Tokens::first_piece, crate::specs::Bytes::is_twin, crate::specs::Bytes::is_run_byte, crate::specs::Bytes::is_letter, crate::specs::Bytes::is_digit, crate::specs::Bytes::is_separator))]
pub(crate) fn twin_at(text: &[u8], at: usize) -> Piece
    requires in_range { at < length text.now }
    requires is_twin { IsTrue (is_twin (slice_index text.now at)) }
    ensures exact { (line : ℕ) → first_piece line (slice_index text.now at) (drop (at + 1) text.now) ≡ Ok result }
    ensures inside { at + result.more < length text.now }
    ensures one_line { IsOneLineToken result }
{
    if text[at] == b':' {
        twin_or_symbol(text, at, TokenKind::Colons)
    } else {
        twin_or_symbol(text, at, TokenKind::Percents)
    }
}

/// The piece that begins with the quote or `/` at `at`, which is on this line.
#[tactic(auto, unfolding(crate::specs::Tokens::first_piece, crate::specs::Bytes::is_opening, crate::specs::Bytes::is_run_byte, crate::specs::Bytes::is_letter, crate::specs::Bytes::is_digit, crate::specs::Bytes::is_separator))]
pub(crate) fn opened_at(text: &[u8], at: usize, line: u32) -> Result<Piece, LexError>
    requires in_range { at < length text.now }
    requires opens { IsTrue (is_opening (slice_index text.now at)) }
    ensures exact { result ≡ first_piece line (slice_index text.now at) (drop (at + 1) text.now) }
    ensures inside { IfOk result (λ piece. at + piece.more < length text.now) }
{
    match text[at] {
        b'\'' => {
            let len = passing_len::<QuotedByte>(text, at + 1);
            quote_at(text, at, len, TokenKind::Quoted, line)
        }
        b'"' => quote_at(text, at, text_len(text, at + 1), TokenKind::Text, line),
        _ => slash_at(text, at, line),
    }
}
