//! Variance validity of interfaces.
ghost use Rattle.std.specs.Prelude.{◌≡◌, ◌≤◌, ◌<◌, length, map, IfSome, slice_get};
ghost use Rattle.std.specs.Option.{option_copied};
ghost use Rattle.vsd_ast.specs.Lookup.{declared};
ghost use Rattle.vsd_ast.specs.WellFormed.{IsDeclaration};
ghost use Rattle.vsd_least.specs.Least.{AtSome, IsLeast};
ghost use Rattle.vsd_lift.specs.Settled.{IsSettled};
ghost use Rattle.vsd_roots.specs.Variance.{InterfaceMisplaced, MethodMisplaced, ShowsMisplaced, inside, interface_sign, is_valid, may_stand, parameter_sign, result_valid, all_negative, signature_valid, sign_of, turned};
ghost use Rattle.vsd_terms.specs.Size.{greatest};
ghost use Rattle.vsd_terms.specs.declared.term.Term.{Term};
ghost use Rattle.vsd_terms.specs.Text.{names_of};

use sqlite_items::at;
use vsd_ast::{Decl, Param, Sign, Signature};
use vsd_least::{earlier, shown};
use vsd_lift::Hierarchy;
use vsd_terms::Term;

/// Where in an interface's declaration a type stands.
#[derive(Clone, Copy)]
pub enum Position {
    /// A result, or an interface that is required.
    Positive,
    /// An argument of a method.
    Negative,
    /// Inside a generic class, or under a parameter without a sign.
    Invariant,
}

impl Position {
    fn turn(self) -> Position
        ensures { result ≡ turned self }
    {
        match self {
            Position::Positive => Position::Negative,
            Position::Negative => Position::Positive,
            Position::Invariant => Position::Invariant,
        }
    }

    // The position of an argument for a parameter of this sign.
    fn under(self, sign: Sign) -> Position
        ensures { result ≡ inside sign self }
    {
        match sign {
            Sign::Plus => self,
            Sign::Minus => self.turn(),
            Sign::Plain => Position::Invariant,
        }
    }

    // Whether a parameter of this sign may stand here.
    fn allows(self, sign: Sign) -> bool
        ensures { result ≡ may_stand sign self }
    {
        match (sign, self) {
            (Sign::Plain, _)
            | (Sign::Plus, Position::Positive)
            | (Sign::Minus, Position::Negative) => true,
            _ => false,
        }
    }
}

fn sign_at(params: &[Param], place: usize) -> Sign
    ensures { result ≡ sign_of (slice_get params.now place) }
{
    match params.get(place) {
        Some(param) => param.sign,
        None => Sign::Plain,
    }
}

// The declaration of this name.
fn declared_as<'a>(h: &Hierarchy<'a>, name: u16) -> Option<&'a Decl>
    requires settled { IsSettled h.now.decls.now h.now.places.now h.now.depths.now }
    requires named { name < length h.now.places.now }
    ensures { option_copied result ≡ declared h.now.decls.now name }
{
    at(h.decls, h.places[name as usize] as usize)
}

// The sign of the parameter at `place`. Those of a class have none.
fn sign_in(decl: &Decl, place: usize) -> Sign
    ensures { result ≡ interface_sign decl.now.is_interface (sign_of (slice_get decl.now.params place)) }
{
    if decl.is_interface {
        sign_at(decl.params.as_slice(), place)
    } else {
        Sign::Plain
    }
}

// The sign of the parameter at `place` of the type of this name.
fn sign_under(h: &Hierarchy<'_>, name: u16, place: usize) -> Sign
    requires settled { IsSettled h.now.decls.now h.now.places.now h.now.depths.now }
    requires named { name < length h.now.places.now }
    ensures { result ≡ parameter_sign (declared h.now.decls.now name) place }
{
    match declared_as(h, name) {
        Some(decl) => sign_in(decl, place),
        None => Sign::Plain,
    }
}

// Whether `t` may stand at the position, in an interface with the parameters `own`.
fn may_stand_at(h: &Hierarchy<'_>, own: &[Param], t: &Term, position: Position) -> bool
    requires settled { IsSettled h.now.decls.now h.now.places.now h.now.depths.now }
    requires named { names_of t.now ≤ length h.now.places.now }
    ensures { result ≡ is_valid h.now.decls.now own.now t.now position }
{
    match t {
        Term::Builtin(_) => true,
        Term::Param(place) => position.allows(sign_at(own, *place as usize)),
        Term::Named { name, args } => {
            let args = args.as_slice();
            for i in 0..args.len() {
                let inner = position.under(sign_under(h, *name, i));
                if !may_stand_at(h, own, &args[i], inner) {
                    return false;
                }
            }
            true
        }
    }
}

fn is_result_valid(h: &Hierarchy<'_>, own: &[Param], result_type: &Option<Term>) -> bool
    requires settled { IsSettled h.now.decls.now h.now.places.now h.now.depths.now }
    requires named { IfSome result_type.now (λ (t : Term). names_of t ≤ length h.now.places.now) }
    ensures { result ≡ result_valid h.now.decls.now own.now result_type.now }
{
    match result_type {
        Some(t) => may_stand_at(h, own, t, Position::Positive),
        None => true,
    }
}

fn are_negative(h: &Hierarchy<'_>, own: &[Param], ts: &[Term]) -> bool
    requires settled { IsSettled h.now.decls.now h.now.places.now h.now.depths.now }
    requires named { greatest (map names_of ts.now) ≤ length h.now.places.now }
    ensures { result ≡ all_negative h.now.decls.now own.now ts.now }
{
    for i in 0..ts.len() {
        if !may_stand_at(h, own, &ts[i], Position::Negative) {
            return false;
        }
    }
    true
}

fn is_signature_valid(h: &Hierarchy<'_>, own: &[Param], signature: &Signature) -> bool
    requires settled { IsSettled h.now.decls.now h.now.places.now h.now.depths.now }
    requires result_named { IfSome signature.now.result (λ (t : Term). names_of t ≤ length h.now.places.now) }
    requires arguments_named { greatest (map names_of signature.now.arguments) ≤ length h.now.places.now }
    ensures { result ≡ signature_valid h.now.decls.now own.now signature.now }
{
    is_result_valid(h, own, &signature.result)
        && are_negative(h, own, signature.arguments.as_slice())
}

// The least line of a method that breaks variance validity.
fn misplaced_method(h: &Hierarchy<'_>, decl: &Decl) -> Option<u32>
    requires settled { IsSettled h.now.decls.now h.now.places.now h.now.depths.now }
    requires written { IsDeclaration (length h.now.places.now) decl.now }
    ensures { IsLeast (AtSome decl.now.methods (MethodMisplaced h.now.decls.now decl.now.params)) result }
{
    let own = decl.params.as_slice();
    let methods = decl.methods.as_slice();
    let mut found = None;
    for i in 0..methods.len() {
        let valid = is_signature_valid(h, own, &methods[i].signature);
        found = earlier(found, shown(!valid, methods[i].line));
    }
    found
}

// The least line of a required interface that breaks variance validity.
fn misplaced_interface(h: &Hierarchy<'_>, decl: &Decl) -> Option<u32>
    requires settled { IsSettled h.now.decls.now h.now.places.now h.now.depths.now }
    requires written { IsDeclaration (length h.now.places.now) decl.now }
    ensures { IsLeast (AtSome decl.now.interfaces (InterfaceMisplaced h.now.decls.now decl.now.params)) result }
{
    let own = decl.params.as_slice();
    let interfaces = decl.interfaces.as_slice();
    let mut found = None;
    for i in 0..interfaces.len() {
        let valid = may_stand_at(h, own, &interfaces[i].term, Position::Positive);
        found = earlier(found, shown(!valid, interfaces[i].line));
    }
    found
}

/// The least line of a method, or of a required interface, of an interface that breaks variance validity (ECMA-335,
/// II.9.7). None for a class.
pub fn misplaced_variance(h: &Hierarchy<'_>, decl: &Decl) -> Option<u32>
    requires settled { IsSettled h.now.decls.now h.now.places.now h.now.depths.now }
    requires written { IsDeclaration (length h.now.places.now) decl.now }
    ensures { IsLeast (ShowsMisplaced h.now.decls.now decl.now) result }
{
    if !decl.is_interface {
        return None;
    }
    earlier(misplaced_method(h, decl), misplaced_interface(h, decl))
}
