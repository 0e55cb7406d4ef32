//! One term of a script.
ghost use Rattle.std.specs.Prelude.{◌≡◌, ◌≤◌, [], length, All, IfOk};
ghost use Rattle.vsd_text.specs.Tokens.{LiesWithin};
ghost use Rattle.vsd_ast.specs.WellFormed.{AreWellFormed};
ghost use Rattle.vsd_grammar.specs.Place.{start_of, most_tokens};
ghost use Rattle.vsd_grammar.specs.Input.{Input};
ghost use Rattle.vsd_grammar.specs.Grammar.{run};
ghost use Rattle.vsd_grammar.specs.Productions.{Reads};
ghost use Rattle.vsd_lanes.specs.Types.{IsRoot};
ghost use Rattle.vsd_script.specs.Productions.{term_at};
ghost use Rattle.vsd_script.specs.Answers.{IsAnswerOf, IsFound, IsOnly, IsDead};

use crate::error::{ScriptError, told};
use std::alloc::Global;
use vsd_ast::Decls;
use vsd_grammar::{Cursor, Stop};
use vsd_lanes::Types;
use vsd_lawful::index;
use vsd_terms::{Names, Term};
use vsd_text::Token;
use vsd_type_syntax::written_open;

/// A term that was read.
#[derive(Debug, Drop)]
pub struct ReadTerm {
    pub term: Term,
    /// The index of the first token after it.
    pub next: u32,
}

/// A term and the index of the token after it.
#[tactic(auto, unfolding(crate::specs::Productions::term_at))]
fn term_here(alloc: Global, cursor: &mut Cursor<'_>, types: &Types<'_>) -> Result<ReadTerm, Stop>
    ensures { Reads (run _ (term_at types.now.decls.now) cursor.old) result cursor.new }
{
    let term = written_open(alloc, cursor, types)?;
    let next = cursor.index();
    if next > 4294967295 {
        return Err(Stop::Memory);
    }
    Ok(ReadTerm {
        term,
        next: next as u32,
    })
}

/// The term that begins at an index.
fn read(
    alloc: Global,
    text: &[u8],
    tokens: &[Token],
    at: u32,
    decls: &Decls,
) -> Result<ReadTerm, Stop>
    requires within { All (LiesWithin text.now) tokens.now }
    requires few { length tokens.now ≤ most_tokens }
    requires formed { AreWellFormed decls.now }
    requires inside { at ≤ length tokens.now }
    ensures { (j : Input) × Reads (run _ (term_at decls.now) (start_of text.now tokens.now at [])) result j }
{
    let Ok(places) = index(alloc, decls) else {
        return Err(Stop::Memory);
    };
    let types = Types::new(decls, places.as_slice());
    let mut cursor = Cursor::new(text, tokens, at as usize, Names::new(alloc));
    term_here(alloc, &mut cursor, &types)
}

/// The term of a script that begins at the token of this index, from 0, or at the end.
///
/// A `[` after the term ends it; otherwise it is refused as a script's terms are, with 20, 21, 28 and 29. `Memory` is want
/// of memory.
pub fn read_term(
    alloc: Global,
    text: &[u8],
    tokens: &[Token],
    at: u32,
    decls: &Decls,
) -> Result<ReadTerm, ScriptError>
    requires within { All (LiesWithin text.now) tokens.now }
    requires few { length tokens.now ≤ most_tokens }
    requires formed { AreWellFormed decls.now }
    requires inside { at ≤ length tokens.now }
    // What is answered is what reading gives, at the line of the token that shows it.
    ensures exact { IsAnswerOf tokens.now (run _ (term_at decls.now) (start_of text.now tokens.now at [])) result }

    // It is what the productions allow, and nothing else is allowed.
    ensures found { IsFound (term_at decls.now) (start_of text.now tokens.now at []) result }
    ensures only { IsOnly (term_at decls.now) (start_of text.now tokens.now at []) result }

    // It is closed and small, and names what is declared, and the token after it is one of the text's, or their end.
    ensures root { IfOk result (λ read. IsRoot decls.now.list read.term) }
    ensures after { IfOk result (λ read. (at ≤ read.next) × (read.next ≤ length tokens.now)) }

    // After the reading's refusal no text goes on that is the same up to and with the token that decided it.
    ensures dead { IsDead (term_at decls.now) (start_of text.now tokens.now at []) }
{
    match read(alloc, text, tokens, at, decls) {
        Ok(term) => Ok(term),
        Err(stop) => Err(told(tokens, stop)),
    }
}
