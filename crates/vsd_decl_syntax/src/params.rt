//! The parameters of a declaration.
ghost use Rattle.std.specs.Prelude.{◌≡◌, ◌≤◌, length, IfOk};
ghost use Rattle.vsd_grammar.specs.Grammar.{run};
ghost use Rattle.vsd_grammar.specs.Productions.{Reads};
ghost use Rattle.vsd_decl_syntax.specs.Parameters as spec;

use crate::rules::{MOST_PARAMS, owned_name};
use sqlite_items::Items;
use std::alloc::Global;
use vsd_ast::{Param, Sign};
use vsd_grammar::{Cause, Counted, Cursor, Form, Keyword, Stop, TokenClass, is_name, separated};

fn symbol_sign(symbol: u8) -> Option<Sign>
    ensures { result ≡ spec.symbol_sign symbol }
{
    if symbol == b'+' {
        Some(Sign::Plus)
    } else if symbol == b'-' {
        Some(Sign::Minus)
    } else {
        None
    }
}

fn sign_of(class: TokenClass) -> Option<Sign>
    ensures { result ≡ spec.sign_of class }
{
    match class {
        TokenClass::Symbol(symbol) => symbol_sign(symbol),
        _ => None,
    }
}

/// Whether a constraint begins here, where a parameter's name is expected.
fn is_constraint(class: TokenClass) -> bool
    ensures { result ≡ spec.is_constraint class }
{
    match class {
        TokenClass::Word(Keyword::Class) => true,
        TokenClass::Word(Keyword::ValueType) => true,
        TokenClass::Directive(Keyword::DotConstructor) => true,
        TokenClass::Symbol(symbol) => symbol == b'(',
        _ => false,
    }
}

/// The name of a parameter with this sign.
#[tactic(auto, unfolding(crate::specs::Parameters::param_name))]
fn param_name(alloc: Global, cursor: &mut Cursor<'_>, sign: Sign) -> Result<Param, Stop>
    ensures { Reads (run _ (spec.param_name sign) cursor.old) result cursor.new }
{
    if is_constraint(cursor.class()) {
        return Err(cursor.refuse(Cause::Unsupported(Form::Constraint)));
    }
    let name = owned_name(alloc, cursor)?;
    Ok(Param { name, sign })
}

#[tactic(auto, unfolding(crate::specs::Parameters::param))]
fn param(alloc: Global, cursor: &mut Cursor<'_>) -> Result<Param, Stop>
    ensures { Reads (run _ spec.param cursor.old) result cursor.new }
{
    match sign_of(cursor.class()) {
        Some(sign) => {
            cursor.pass()?;
            param_name(alloc, cursor, sign)
        }
        None => param_name(alloc, cursor, Sign::Plain),
    }
}

/// Why a token is refused that can't begin a parameter without a sign.
fn name_first(class: TokenClass, bytes: &[u8]) -> Option<Cause>
    ensures { result ≡ spec.name_first class bytes.now }
{
    if is_constraint(class) {
        return Some(Cause::Unsupported(Form::Constraint));
    }
    if !is_name(class) {
        return Some(Cause::Unexpected);
    }
    if bytes.len() == 0 {
        return Some(Cause::Unexpected);
    }
    None
}

fn param_first(class: TokenClass, bytes: &[u8]) -> Option<Cause>
    ensures { result ≡ spec.param_first class bytes.now }
{
    match sign_of(class) {
        Some(_) => None,
        None => name_first(class, bytes),
    }
}

#[tactic(auto, unfolding(crate::specs::Parameters::param_list))]
fn param_list(alloc: Global, cursor: &mut Cursor<'_>) -> Result<Items<Param>, Stop>
    ensures { Reads (run _ spec.param_list cursor.old) result cursor.new }
{
    let item = |inner: &mut Cursor<'_>| -> Result<Param, Stop>
        ensures { Reads (run _ spec.param inner.old) result inner.new }
    { param(alloc, inner) };
    let many = Cause::TooMany(Counted::Parameters);
    separated(alloc, cursor, param_first, many, MOST_PARAMS as usize, item)
}

/// The parameters of a declaration, between `<` and `>`, if it has any.
#[tactic(auto, unfolding(crate::specs::Parameters::params), using(crate::proofs::Few::few_listed))]
pub fn params(alloc: Global, cursor: &mut Cursor<'_>) -> Result<Items<Param>, Stop>
    ensures reads { Reads (run _ spec.params cursor.old) result cursor.new }
    ensures few { IfOk result (λ params. length params ≤ spec.most_params) }
{
    if !cursor.sees(TokenClass::Symbol(b'<')) {
        return Ok(Items::new(alloc));
    }
    cursor.pass()?;
    let params = param_list(alloc, cursor)?;
    cursor.expect(TokenClass::Symbol(b'>'))?;
    Ok(params)
}
