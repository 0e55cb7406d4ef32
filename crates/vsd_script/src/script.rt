//! The whole script.
ghost use Rattle.std.specs.Prelude.{◌≡◌, ◌≤◌, [], length, All, IfOk};
ghost use Rattle.vsd_text.specs.Tokens.{LiesWithin};
ghost use Rattle.vsd_ast.specs.WellFormed.{AreWellFormed};
ghost use Rattle.vsd_ast.specs.Scripts.{IsWellFormedScript};
ghost use Rattle.vsd_grammar.specs.Place.{start_of, most_tokens};
ghost use Rattle.vsd_grammar.specs.Input.{Input, is_end};
ghost use Rattle.vsd_grammar.specs.Grammar.{run};
ghost use Rattle.vsd_grammar.specs.Productions.{Reads};
ghost use Rattle.vsd_lanes.specs.Types.{IsRoot};
ghost use Rattle.vsd_script.specs.Productions as spec;
ghost use Rattle.vsd_script.specs.Formed.{NamesMethod};
ghost use Rattle.vsd_script.specs.Named.{HasOwnNames, CallsOnlyConcrete};
ghost use Rattle.vsd_script.specs.Answers.{IsAnswerOf, IsFound, IsOnly, IsDead};

use crate::error::{ScriptError, told};
use crate::statements::{host, lane_of, site};
use sqlite_items::Items;
use std::alloc::Global;
use vsd_ast::{Decls, Script};
use vsd_grammar::{Cause, Cursor, Keyword, Stop, TokenClass, until};
use vsd_lanes::Types;
use vsd_lawful::index;
use vsd_terms::Names;
use vsd_text::Token;

/// The word of a statement.
#[derive(Clone, Copy, Debug, PartialEq, Eq, Drop)]
pub enum Word {
    Site,
    Host,
    Lane,
}

fn word_of(class: TokenClass) -> Option<Word>
    ensures { result ≡ spec.word_of class }
{
    match class {
        TokenClass::Word(Keyword::Site) => Some(Word::Site),
        TokenClass::Word(Keyword::Host) => Some(Word::Host),
        TokenClass::Word(Keyword::Lane) => Some(Word::Lane),
        _ => None,
    }
}

/// A statement.
#[tactic(auto, unfolding(crate::specs::Productions::statement))]
fn statement(
    alloc: Global,
    cursor: &mut Cursor<'_>,
    types: &Types<'_>,
    script: Script,
) -> Result<Script, Stop>
    ensures { Reads (run _ (spec.statement types.now.decls.now script) cursor.old) result cursor.new }
{
    match word_of(cursor.class()) {
        None => Err(cursor.refuse(Cause::Unexpected)),
        Some(Word::Site) => site(alloc, cursor, types, script),
        Some(Word::Host) => host(alloc, cursor, types, script),
        Some(Word::Lane) => lane_of(alloc, cursor, types, script),
    }
}

fn is_end(class: TokenClass) -> bool
    ensures { result ≡ is_end class }
{
    match class {
        TokenClass::End => true,
        _ => false,
    }
}

fn empty(alloc: Global) -> Script
    ensures { result ≡ spec.empty }
{
    Script {
        roots: Items::new(alloc),
        sites: Items::new(alloc),
        hosts: Items::new(alloc),
        lanes: Items::new(alloc),
    }
}

/// Statements up to the end.
fn all(alloc: Global, cursor: &mut Cursor<'_>, types: &Types<'_>) -> Result<Script, Stop>
    ensures { Reads (run _ (spec.script types.now.decls.now) cursor.old) result cursor.new }
{
    let one = |inner: &mut Cursor<'_>, script: Script| -> Result<Script, Stop>
        ensures { Reads (run _ (spec.statement types.entry.now.decls.now script) inner.old) result inner.new }
    { statement(alloc, inner, types, script) };
    until(cursor, empty(alloc), is_end, one)
}

/// The script from the token after the declarations.
fn read(alloc: Global, text: &[u8], tokens: &[Token], decls: &Decls) -> Result<Script, Stop>
    requires within { All (LiesWithin text.now) tokens.now }
    requires few { length tokens.now ≤ most_tokens }
    requires formed { AreWellFormed decls.now }
    requires rest { decls.now.rest ≤ length tokens.now }
    ensures { (j : Input) × Reads (run _ (spec.script decls.now) (start_of text.now tokens.now decls.now.rest [])) result j }
{
    let Ok(places) = index(alloc, decls) else {
        return Err(Stop::Memory);
    };
    let types = Types::new(decls, places.as_slice());
    let mut cursor = Cursor::new(text, tokens, decls.rest as usize, Names::new(alloc));
    all(alloc, &mut cursor, &types)
}

/// The script of a text, from the token `decls.rest` to the end.
///
/// The declarations are those of the same text, and the tokens are all of its tokens. A refusal is the first that the
/// tokens show in the order in which they are read, where a repeat's body is read again for each of its rounds; of two at
/// one token it is the one of the lower number. `Memory` is want of memory. The language is this project's own; its types
/// are those of ECMA-335, II.7.1.
pub fn read_script(
    alloc: Global,
    text: &[u8],
    tokens: &[Token],
    decls: &Decls,
) -> Result<Script, ScriptError>
    requires within { All (LiesWithin text.now) tokens.now }
    requires few { length tokens.now ≤ most_tokens }
    requires formed { AreWellFormed decls.now }
    requires rest { decls.now.rest ≤ length tokens.now }
    // What is answered is what reading gives, at the line of the token that shows it.
    ensures exact { IsAnswerOf tokens.now (run _ (spec.script decls.now) (start_of text.now tokens.now decls.now.rest [])) result }

    // It is what the productions allow, and nothing else is allowed.
    ensures found { IsFound (spec.script decls.now) (start_of text.now tokens.now decls.now.rest []) result }
    ensures only { IsOnly (spec.script decls.now) (start_of text.now tokens.now decls.now.rest []) result }

    // It keeps the limits, and its operations name what is there and lives.
    ensures formed { IfOk result IsWellFormedScript }

    // Sites have names of their own, and so have hosts and the variables of a lane, none of which has a host's before it.
    ensures names { IfOk result HasOwnNames }

    // Each call is made on an object of a class that isn't abstract.
    ensures calls { IfOk result (CallsOnlyConcrete decls.now) }

    // Its terms are closed and small, and name what is declared, and each site names a method of its interface.
    ensures roots { IfOk result (λ s. All (IsRoot decls.now.list) s.roots) }
    ensures slots { IfOk result (λ s. All (NamesMethod decls.now.list s.roots) s.sites) }

    // After the reading's refusal no text goes on that is the same up to and with the token that decided it.
    ensures dead { IsDead (spec.script decls.now) (start_of text.now tokens.now decls.now.rest []) }
{
    match read(alloc, text, tokens, decls) {
        Ok(script) => Ok(script),
        Err(stop) => Err(told(tokens, stop)),
    }
}
