//! What names and parameters stand for in declarations.
ghost use Rattle.std.specs.Prelude.{◌≡◌, ◌≤◌, length, position};
ghost use Rattle.std.specs.Str.{bytes_eq};
ghost use Rattle.vsd_grammar.specs.Grammar.{run};
ghost use Rattle.vsd_grammar.specs.Productions.{Reads, name};
ghost use Rattle.vsd_decl_syntax.specs.Parameters.{digit_below, most_params};
ghost use Rattle.vsd_decl_syntax.specs.Parameters as spec;

use sqlite_items::Items;
use std::alloc::Global;
use vsd_ast::{Bytes, Param};
use vsd_grammar::{Cause, Cursor, Form, Stop, TokenClass, is_name, name};
use vsd_type_syntax::TypeRules;

/// The most parameters of a declaration.
pub const MOST_PARAMS: u8 = 8;

/// How types are read in declarations, with these parameters in hand.
#[derive(Clone, Copy)]
pub struct DeclRules<'a> {
    /// The parameters of the class in hand, at most 8.
    pub params: &'a [Param],
    /// Whether `!` names a parameter of an override's owner instead, by its place.
    pub of_owner: bool,
    ghost few: { length params.now ≤ most_params },
}

impl TypeRules for DeclRules<'_> {
    ghost use Rattle.vsd_decl_syntax.specs.Parameters.{rules_of};

    ghost rules = { λ r. rules_of r.of_owner r.params.now };

    #[tactic(auto, unfolding(vsd_grammar::specs::Productions::number))]
    fn resolve(&self, cursor: &mut Cursor<'_>, name: &[u8]) -> Result<u16, Stop> {
        cursor.number(name)
    }

    fn foreign(&self, name: &[u8]) -> Cause {
        let _ = name;
        Cause::Unsupported(Form::ForeignType)
    }

    fn has_parameters(&self) -> bool {
        true
    }

    fn parameter(&self, class: TokenClass, bytes: &[u8]) -> Option<u8> {
        if self.of_owner {
            owner_parameter(class, bytes)
        } else {
            own_parameter(self.params, class, bytes)
        }
    }

    fn arity(&self, number: u16, count: usize) -> Option<Cause> {
        let _ = number;
        let _ = count;
        None
    }
}

/// One decimal digit, below a bound.
fn digit_below(most: usize, bytes: &[u8]) -> Option<u8>
    ensures { result ≡ digit_below most bytes.now }
{
    let [digit] = bytes else {
        return None;
    };
    if *digit < b'0' {
        return None;
    }
    if *digit > b'9' {
        return None;
    }
    let place = *digit - b'0';
    if (place as usize) < most {
        Some(place)
    } else {
        None
    }
}

/// The parameter of an override's owner that a token names.
fn owner_parameter(class: TokenClass, bytes: &[u8]) -> Option<u8>
    ensures { result ≡ spec.owner_parameter class bytes.now }
{
    match class {
        TokenClass::Number => digit_below(MOST_PARAMS as usize, bytes),
        _ => None,
    }
}

/// The parameter of the class in hand that a token names.
fn own_parameter(params: &[Param], class: TokenClass, bytes: &[u8]) -> Option<u8>
    requires { length params.now ≤ most_params }
    ensures { result ≡ spec.own_parameter params.now class bytes.now }
{
    match class {
        TokenClass::Number => digit_below(params.len(), bytes),
        _ => {
            if is_name(class) {
                place_of(params, bytes)
            } else {
                None
            }
        }
    }
}

/// The place of the first parameter of this name.
#[tactic(auto, using(crate::proofs::Few::place_is_small))]
fn place_of(params: &[Param], name: &[u8]) -> Option<u8>
    requires { length params.now ≤ most_params }
    ensures { result ≡ position (λ p. bytes_eq p.name name.now) params.now }
{
    match first_named(params, name) {
        Some(place) => Some(place as u8),
        None => None,
    }
}

fn first_named(params: &[Param], name: &[u8]) -> Option<usize>
    ensures { result ≡ position (λ p. bytes_eq p.name name.now) params.now }
{
    params.iter().position(|param| is_named(param, name))
}

fn is_named(param: &Param, name: &[u8]) -> bool
    ensures { result ≡ bytes_eq param.now.name name.now }
{
    param.name.as_slice() == name
}

/// A name, which is copied.
pub fn owned_name(alloc: Global, cursor: &mut Cursor<'_>) -> Result<Bytes, Stop>
    ensures { Reads (run _ name cursor.old) result cursor.new }
{
    let bytes = name(cursor)?;
    Ok(Items::from_slice(alloc, bytes)?)
}
