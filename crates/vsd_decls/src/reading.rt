//! The reader of declarations.
ghost use Rattle.std.specs.Prelude.{ℕ, ◌≡◌, ◌≤◌, length, All, IfOk, IfErr, IfSome};
ghost use Rattle.vsd_text.specs.Tokens.{LiesWithin};
ghost use Rattle.vsd_ast.specs.WellFormed.{AreWellFormed};
ghost use Rattle.vsd_ast.specs.declared.declarations.Decls.{Decls};
ghost use Rattle.vsd_grammar.specs.Place.{most_tokens};
ghost use Rattle.vsd_grammar.specs.declared.cause.Cause.{Cause};
ghost use Rattle.vsd_decls.specs.Refusals.{refusal_of};
ghost use Rattle.vsd_decls.specs.Declarations.{AreDeclarations, IsOnly, IsFirstRefusal, IsRefused, IsDead, decls_of};

use crate::declarations::declarations;
use crate::errors::{DeclError, error_of};
use sqlite_items::Items;
use std::alloc::Global;
use vsd_ast::{Decl, Decls};
use vsd_grammar::{Cursor, Stop};
use vsd_terms::Names;
use vsd_text::Token;

/// The declarations of a text, which end with the first `%%` that stands outside of braces. What follows it isn't read.
///
/// The tokens are those of [`vsd_text::lex`] on this text, or any others that lie in it.
///
/// A refusal is the first that the productions come to: of two at one token the lower number counts, save that
/// `Unsupported` counts before `Unexpected`, and of two texts of `TooMany` that of names comes last and that of name
/// bytes last but it. `Memory` is want of memory.
pub fn read_decls(alloc: Global, text: &[u8], tokens: &[Token]) -> Result<Decls, DeclError>
    requires within { All (LiesWithin text.now) tokens.now }
    requires few { length tokens.now ≤ most_tokens }
    ensures found { IfOk result (AreDeclarations text.now tokens.now) }
    ensures only { (d : Decls) → AreDeclarations text.now tokens.now d → IsOnly d result }
    ensures formed { IfOk result AreWellFormed }
    ensures rest { IfOk result (λ d. d.rest ≤ length tokens.now) }
    ensures refused { IfErr result (λ e. IfSome (refusal_of e) (IsFirstRefusal text.now tokens.now)) }
    ensures whenever { (shown : ℕ × Cause) → IsFirstRefusal text.now tokens.now shown → IsRefused shown result }
    ensures dead { IsDead text.now tokens.now }
{
    let mut cursor = Cursor::new(text, tokens, 0, Names::new(alloc));
    match declarations(alloc, &mut cursor) {
        Ok(list) => Ok(decls_of(cursor, list)),
        Err(Stop::Memory) => Err(DeclError::Memory),
        Err(Stop::Refused(refused)) => Err(error_of(tokens, refused)),
    }
}

/// What was read up to this place.
fn decls_of(cursor: Cursor<'_>, list: Items<Decl>) -> Decls
    ensures { result ≡ decls_of cursor.entry list }
{
    let rest = cursor.index() as u32;
    Decls {
        names: cursor.into_names(),
        list,
        rest,
    }
}
