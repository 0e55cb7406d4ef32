//! A place in a list of tokens.
ghost use Rattle.std.specs.Prelude.{◌≡◌, ◌≢◌, ◌≤◌, min, false, if◌then◌else◌, length, map, slice_get, All, Contains};
ghost use Rattle.vsd_text.specs.Tokens.{LiesWithin};
ghost use Rattle.vsd_terms.specs.Names.{AreNames};
ghost use Rattle.vsd_grammar.specs.Input.{class_at, bytes_at, line_at, class_of, class_by, word_class, same_keyword, same_class, is_end, next, left};
ghost use Rattle.vsd_grammar.specs.Words.{keyword_of, begins_with_point};
ghost use Rattle.vsd_grammar.specs.Place.{seen_of, start_of, most_tokens, line_of, end_line};
ghost use Rattle.vsd_grammar.specs.Grammar.{syntax_error, run, pass};
ghost use Rattle.vsd_grammar.specs.Productions.{Reads, expect, must_see, eat, no_nodes, node, node_at, number};

use crate::cause::{Cause, Counted};
use crate::keyword::{Keyword, begins_with_point, keyword_of};
use crate::syntax_error::{Stop, SyntaxError};
use crate::token_class::TokenClass;
use sqlite_items::at as token_at;
use std::marker::Model;
use vsd_terms::{Names, NamesError};
use vsd_text::{Token, TokenKind};

/// The most nodes of a written term.
pub const MOST_NODES: u8 = 64;

/// A place in a list of tokens, with what was counted up to there.
#[derive(Drop)]
pub struct Cursor<'a> {
    text: &'a [u8],
    tokens: &'a [Token],
    /// The index of the token at hand, or the number of tokens at the end.
    at: usize,
    /// The class of the token at hand.
    class: TokenClass,
    /// The nodes of the written term in hand.
    nodes: u8,
    names: Names,
}

impl<'a> Model for Cursor<'a> {
    ghost use Rattle.vsd_grammar.specs.Input.{Input};

    ghost Value = { Input };

    ghost use Rattle.vsd_grammar.specs.Words.{keyword_of, begins_with_point};
    ghost use Rattle.vsd_grammar.specs.Place.{input_of, IsReady};

    ghost view = { input_of };

    ghost invariant = { IsReady };
}

impl<'a> Cursor<'a> {
    /// The place of the token at an index, from 0, or of the end, which has the number of tokens, with these names.
    ///
    /// No nodes are counted there.
    pub fn new(text: &'a [u8], tokens: &'a [Token], index: usize, names: Names) -> Cursor<'a>
        requires within { All (LiesWithin text.now) tokens.now }
        requires few { length tokens.now ≤ most_tokens }
        requires inside { index ≤ length tokens.now }
        ensures { result ≡ start_of text.now tokens.now index names }
    {
        Cursor {
            text,
            tokens,
            at: index,
            class: class_in(text, tokens, index),
            nodes: 0,
            names,
        }
    }

    /// The class of the token at hand.
    #[tactic(auto, using(crate::proofs::Places::known_class))]
    pub fn class(&self) -> TokenClass
        ensures { result ≡ class_at self.now }
    {
        self.class
    }

    /// The bytes of the token at hand, without its quotes, and none at the end.
    pub fn bytes(&self) -> &'a [u8]
        ensures { result.now ≡ bytes_at self.now }
    {
        match token_at(self.tokens, self.at) {
            None => &[],
            Some(token) => &self.text[token.start as usize..token.end as usize],
        }
    }

    /// The line of the token at hand, from 1, and 0 at the end.
    pub fn line(&self) -> u32
        ensures { result ≡ line_at self.now }
    {
        match token_at(self.tokens, self.at) {
            None => 0,
            Some(token) => token.line,
        }
    }

    /// The index of the token at hand, from 0, or the number of tokens at the end; at most 4,194,304.
    #[tactic(auto, using(crate::proofs::Ends::index_inside))]
    pub fn index(&self) -> usize
        ensures value { result ≡ self.now.at }
        ensures inside { result ≤ length self.now.all }
        ensures small { result ≤ most_tokens }
    {
        self.at
    }

    /// How many tokens are left, with the one at hand, at most 4,194,304.
    #[tactic(auto, using(crate::proofs::Ends::left_from))]
    pub fn left(&self) -> usize
        ensures value { result ≡ left self.now }
        ensures small { result ≤ most_tokens }
    {
        self.tokens.len() - self.at
    }

    /// The refusal of the token at hand, for this cause.
    pub fn refuse(&self, cause: Cause) -> Stop
        ensures { result ≡ Stop.Refused (syntax_error self.now cause) }
    {
        Stop::Refused(SyntaxError {
            at: self.at,
            by: self.at,
            cause,
        })
    }

    /// The refusal of the token of this index, for this cause, which the token at hand decides.
    ///
    /// It stands at the token at hand where that comes before the index.
    pub fn refuse_at(&self, index: usize, cause: Cause) -> Stop
        ensures { result
            ≡ Stop.Refused (record { at = min index self.now.at; by = self.now.at; cause = cause }) }
    {
        Stop::Refused(SyntaxError {
            at: index.min(self.at),
            by: self.at,
            cause,
        })
    }

    /// Passes over the token at hand, which is there.
    #[tactic(auto, using(crate::proofs::Ends::class_at_end))]
    pub fn advance(&mut self)
        requires { is_end (class_at self.old) ≡ false }
        ensures { self.new ≡ next self.old }
    {
        self.at += 1;
        self.class = class_in(self.text, self.tokens, self.at);
    }

    /// Passes over the token at hand, whatever it is.
    ///
    /// The end is refused as unexpected.
    #[tactic(auto, using(crate::proofs::Ends::class_at_end, crate::proofs::Ends::class_in_list))]
    pub fn pass(&mut self) -> Result<(), Stop>
        ensures reads { Reads (run _ pass self.old) result self.new }
        ensures sure { result ≢ Err Stop.Memory }
    {
        if self.at >= self.tokens.len() {
            return Err(self.refuse(Cause::Unexpected));
        }
        self.advance();
        Ok(())
    }

    /// Whether the token at hand is of this class.
    pub fn sees(&self, wanted: TokenClass) -> bool
        ensures { result ≡ same_class wanted (class_at self.now) }
    {
        same_class(wanted, self.class())
    }

    /// Passes over a token of this class; any other is refused as unexpected.
    #[tactic(auto, unfolding(crate::specs::Productions::expect))]
    pub fn expect(&mut self, wanted: TokenClass) -> Result<(), Stop>
        ensures reads { Reads (run _ (expect wanted) self.old) result self.new }
        ensures sure { result ≢ Err Stop.Memory }
    {
        if self.sees(wanted) {
            self.pass()
        } else {
            Err(self.refuse(Cause::Unexpected))
        }
    }

    /// Sees that a token of this class is at hand; any other is refused as unexpected.
    #[tactic(auto, unfolding(crate::specs::Productions::must_see))]
    pub fn must_see(&self, wanted: TokenClass) -> Result<(), Stop>
        ensures reads { Reads (run _ (must_see wanted) self.now) result self.now }
        ensures sure { result ≢ Err Stop.Memory }
    {
        if self.sees(wanted) {
            Ok(())
        } else {
            Err(self.refuse(Cause::Unexpected))
        }
    }

    /// Passes over a token of this class, if it is at hand, and tells whether it was.
    #[tactic(auto, using(crate::proofs::Steps::eaten_token, crate::proofs::Steps::nothing_eaten, crate::proofs::Steps::seen_is_some))]
    pub fn eat(&mut self, wanted: TokenClass) -> bool
        requires { is_end wanted ≡ false }
        ensures found { result ≡ same_class wanted (class_at self.old) }
        ensures after { self.new ≡ (if result then next self.old else self.old) }
        ensures reads { run _ (eat wanted) self.old ≡ Ok (result, self.new) }
    {
        let found = self.sees(wanted);
        if found {
            self.advance();
        }
        found
    }

    /// Begins a written term: it has no nodes so far.
    #[tactic(auto, unfolding(crate::specs::Productions::no_nodes))]
    pub fn begin_term(&mut self)
        ensures { run _ no_nodes self.old ≡ Ok (tt, self.new) }
    {
        self.nodes = 0;
    }

    /// Counts a node of the written term in hand, which the token at hand names.
    ///
    /// The 65th is refused as too deep.
    #[tactic(auto, unfolding(crate::specs::Productions::node))]
    pub fn node(&mut self) -> Result<(), Stop>
        ensures reads { Reads (run _ node self.old) result self.new }
        ensures sure { result ≢ Err Stop.Memory }
    {
        if self.nodes >= MOST_NODES {
            return Err(self.refuse(Cause::TooDeep));
        }
        self.nodes += 1;
        Ok(())
    }

    /// Counts a node of the written term in hand, which the token of this index names.
    ///
    /// The 65th is refused as too deep, at that index, and the token at hand decides it.
    #[tactic(auto, unfolding(crate::specs::Productions::node_at))]
    pub fn node_at(&mut self, index: usize) -> Result<(), Stop>
        ensures reads { Reads (run _ (node_at index) self.old) result self.new }
        ensures sure { result ≢ Err Stop.Memory }
    {
        if self.nodes >= MOST_NODES {
            return Err(self.refuse_at(index, Cause::TooDeep));
        }
        self.nodes += 1;
        Ok(())
    }

    /// The number of a name, from 0 to 2,047, which is a new one if the name has none so far.
    ///
    /// A new name that would be the 2,049th is refused, at the token at hand, as one too many. Want of memory is
    /// `Stop::Memory`.
    pub fn number(&mut self, name: &[u8]) -> Result<u16, Stop>
        ensures { Reads (run _ (number name.now) self.old) result self.new }
    {
        match self.names.find(name) {
            Some(number) => Ok(number),
            None => self.add_name(name),
        }
    }

    fn add_name(&mut self, name: &[u8]) -> Result<u16, Stop>
        requires names { AreNames self.old.state.names }
        requires new { ¬ Contains self.old.state.names name.now }
        ensures { Reads (run _ (number name.now) self.old) result self.new }
    {
        match self.names.number(name) {
            Ok(number) => Ok(number),
            Err(NamesError::Full) => Err(self.refuse(Cause::TooMany(Counted::Names))),
            Err(NamesError::Memory) => Err(Stop::Memory),
        }
    }

    /// The names that have a number.
    pub fn into_names(self) -> Names
        ensures { result ≡ self.entry.state.names }
    {
        let Cursor { names, .. } = self;
        names
    }
}

/// The class of the token at an index, or that of the end.
fn class_in(text: &[u8], tokens: &[Token], index: usize) -> TokenClass
    requires { All (LiesWithin text.now) tokens.now }
    ensures { result ≡ class_of (slice_get (map (seen_of text.now) tokens.now) index) }
{
    match token_at(tokens, index) {
        None => TokenClass::End,
        Some(token) => class_by(token.kind, &text[token.start as usize..token.end as usize]),
    }
}

/// The class of a token of this kind with these bytes.
fn class_by(kind: TokenKind, bytes: &[u8]) -> TokenClass
    ensures { result ≡ class_by kind bytes.now }
{
    match kind {
        TokenKind::Word => word_class(bytes),
        TokenKind::Quoted => TokenClass::Quoted,
        TokenKind::Number => TokenClass::Number,
        TokenKind::Text => TokenClass::Text,
        TokenKind::Symbol(symbol) => TokenClass::Symbol(symbol),
        TokenKind::Colons => TokenClass::Colons,
        TokenKind::Percents => TokenClass::Percents,
    }
}

/// The class of a Word.
fn word_class(bytes: &[u8]) -> TokenClass
    ensures { result ≡ word_class (begins_with_point bytes.now) (keyword_of bytes.now) }
{
    if begins_with_point(bytes) {
        TokenClass::Directive(keyword_of(bytes))
    } else {
        TokenClass::Word(keyword_of(bytes))
    }
}

/// Whether the two keys are the same.
pub fn same_keyword(a: Keyword, b: Keyword) -> bool
    ensures { result ≡ same_keyword a b }
{
    a == b
}

/// Whether the two classes are the same.
pub fn same_class(a: TokenClass, b: TokenClass) -> bool
    ensures { result ≡ same_class a b }
{
    match (a, b) {
        (TokenClass::End, TokenClass::End)
        | (TokenClass::Quoted, TokenClass::Quoted)
        | (TokenClass::Number, TokenClass::Number)
        | (TokenClass::Text, TokenClass::Text)
        | (TokenClass::Colons, TokenClass::Colons)
        | (TokenClass::Percents, TokenClass::Percents) => true,
        (TokenClass::Word(a), TokenClass::Word(b)) => same_keyword(a, b),
        (TokenClass::Directive(a), TokenClass::Directive(b)) => same_keyword(a, b),
        (TokenClass::Symbol(a), TokenClass::Symbol(b)) => a == b,
        _ => false,
    }
}

/// The line, from 1, of the token at an index, or that of the end.
///
/// The line of the end is that of the last token, or 1 without tokens.
pub fn line_of(tokens: &[Token], index: usize) -> u32
    ensures { result ≡ line_of tokens.now index }
{
    match token_at(tokens, index) {
        Some(token) => token.line,
        None => end_line(tokens),
    }
}

fn end_line(tokens: &[Token]) -> u32
    ensures { result ≡ end_line tokens.now }
{
    match token_at(tokens, tokens.len().saturating_sub(1)) {
        Some(token) => token.line,
        None => 1,
    }
}
