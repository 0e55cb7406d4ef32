//! Overrides: what they name, in a body and in a class.
ghost use Rattle.std.specs.Prelude.{◌≡◌, ◌≤◌, length};
ghost use Rattle.vsd_grammar.specs.Grammar.{run};
ghost use Rattle.vsd_grammar.specs.Productions.{Reads};
ghost use Rattle.vsd_decl_syntax.specs.Parameters.{rules_of, most_params};
ghost use Rattle.vsd_decl_syntax.specs.Overrides as spec;

use crate::arguments::arguments;
use crate::rules::{DeclRules, owned_name};
use crate::signatures::{instance, result_type};
use sqlite_items::Items;
use std::alloc::Global;
use vsd_ast::{Bytes, Implementer, Override, Param, Signature};
use vsd_grammar::{Cause, Counted, Cursor, Keyword, Stop, TokenClass};
use vsd_terms::Term;
use vsd_type_syntax::written;

/// The most overrides of a declaration.
const MOST_OVERRIDES: usize = 256;

/// A method that is named by its class, its name and its signature.
#[derive(Debug, Drop)]
pub struct MethodRef {
    pub owner: Term,
    pub name: Bytes,
    pub signature: Signature,
}

/// A method that is overridden. It has its signature in the long form, with the word `method`.
#[derive(Debug, Drop)]
pub struct Target {
    pub owner: Term,
    pub name: Bytes,
    pub signature: Option<Signature>,
}

/// A method by its class, its name and its signature; the parameters of the signature are those of `signed`.
#[tactic(auto, unfolding(crate::specs::Overrides::method_ref))]
fn method_ref(
    alloc: Global,
    cursor: &mut Cursor<'_>,
    own: &DeclRules<'_>,
    signed: &DeclRules<'_>,
) -> Result<MethodRef, Stop>
    ensures { Reads (run _ (spec.method_ref (rules_of own.now.of_owner own.now.params.now)
        (rules_of signed.now.of_owner signed.now.params.now)) cursor.old) result cursor.new }
{
    instance(cursor)?;
    let result = result_type(alloc, cursor, signed)?;
    let owner = written(alloc, cursor, own, true)?;
    cursor.expect(TokenClass::Colons)?;
    let name = owned_name(alloc, cursor)?;
    let arguments = arguments(alloc, cursor, signed)?;
    let signature = Signature { result, arguments };
    Ok(MethodRef {
        owner,
        name,
        signature,
    })
}

#[tactic(auto, unfolding(crate::specs::Overrides::short_target))]
fn short_target(alloc: Global, cursor: &mut Cursor<'_>, params: &[Param]) -> Result<Target, Stop>
    requires { length params.now ≤ most_params }
    ensures { Reads (run _ (spec.short_target params.now) cursor.old) result cursor.new }
{
    let rules = DeclRules {
        params,
        of_owner: false,
    };
    let owner = written(alloc, cursor, &rules, true)?;
    cursor.expect(TokenClass::Colons)?;
    let name = owned_name(alloc, cursor)?;
    Ok(Target {
        owner,
        name,
        signature: None,
    })
}

#[tactic(auto, unfolding(crate::specs::Overrides::long_target))]
fn long_target(alloc: Global, cursor: &mut Cursor<'_>, params: &[Param]) -> Result<Target, Stop>
    requires { length params.now ≤ most_params }
    ensures { Reads (run _ (spec.long_target params.now) cursor.old) result cursor.new }
{
    let own = DeclRules {
        params,
        of_owner: false,
    };
    let signed = DeclRules {
        params,
        of_owner: true,
    };
    cursor.pass()?;
    let MethodRef {
        owner,
        name,
        signature,
    } = method_ref(alloc, cursor, &own, &signed)?;
    Ok(Target {
        owner,
        name,
        signature: Some(signature),
    })
}

/// What is overridden, in a class with these parameters.
#[tactic(auto, unfolding(crate::specs::Overrides::target))]
fn any_target(alloc: Global, cursor: &mut Cursor<'_>, params: &[Param]) -> Result<Target, Stop>
    requires { length params.now ≤ most_params }
    ensures { Reads (run _ (spec.target params.now) cursor.old) result cursor.new }
{
    if cursor.sees(TokenClass::Word(Keyword::Method)) {
        long_target(alloc, cursor, params)
    } else {
        short_target(alloc, cursor, params)
    }
}

/// There is room for one more override, or the token at hand is refused.
fn room_for_override(cursor: &Cursor<'_>, room: bool) -> Result<(), Stop>
    ensures { Reads (run _ (spec.room_for_override room) cursor.now) result cursor.now }
{
    if room {
        Ok(())
    } else {
        Err(cursor.refuse(Cause::TooMany(Counted::Overrides)))
    }
}

fn override_of(line: u32, target: Target, body: Implementer) -> Override
    ensures { result ≡ spec.override_of line target body }
{
    let Target {
        owner,
        name,
        signature,
    } = target;
    Override {
        line,
        owner,
        name,
        signature,
        body,
    }
}

/// An override in the body of the method at this place, after those found.
#[tactic(auto, unfolding(crate::specs::Overrides::body_override))]
pub fn body_override(
    alloc: Global,
    cursor: &mut Cursor<'_>,
    params: &[Param],
    own: u16,
    mut found: Items<Override>,
) -> Result<Items<Override>, Stop>
    requires { length params.now ≤ most_params }
    ensures { Reads (run _ (spec.body_override params.now own found) cursor.old) result cursor.new }
{
    let line = cursor.line();
    room_for_override(cursor, found.len() < MOST_OVERRIDES)?;
    cursor.pass()?;
    let target = any_target(alloc, cursor, params)?;
    found.push(override_of(line, target, Implementer::Own(own)))?;
    Ok(found)
}

/// The method that stands after `with`.
#[tactic(auto, unfolding(crate::specs::Overrides::implementer_ref))]
fn implementer_ref(
    alloc: Global,
    cursor: &mut Cursor<'_>,
    params: &[Param],
) -> Result<Implementer, Stop>
    requires { length params.now ≤ most_params }
    ensures { Reads (run _ (spec.implementer_ref params.now) cursor.old) result cursor.new }
{
    let own = DeclRules {
        params,
        of_owner: false,
    };
    cursor.expect(TokenClass::Word(Keyword::With))?;
    let _ = cursor.eat(TokenClass::Word(Keyword::Method));
    let MethodRef {
        owner,
        name,
        signature,
    } = method_ref(alloc, cursor, &own, &own)?;
    Ok(Implementer::Named {
        owner,
        name,
        signature,
    })
}

/// An override among a class's members, after those found.
#[tactic(auto, unfolding(crate::specs::Overrides::class_override))]
pub fn class_override(
    alloc: Global,
    cursor: &mut Cursor<'_>,
    params: &[Param],
    mut found: Items<Override>,
) -> Result<Items<Override>, Stop>
    requires { length params.now ≤ most_params }
    ensures { Reads (run _ (spec.class_override params.now found) cursor.old) result cursor.new }
{
    let line = cursor.line();
    room_for_override(cursor, found.len() < MOST_OVERRIDES)?;
    cursor.pass()?;
    let target = any_target(alloc, cursor, params)?;
    let body = implementer_ref(alloc, cursor, params)?;
    found.push(override_of(line, target, body))?;
    Ok(found)
}
