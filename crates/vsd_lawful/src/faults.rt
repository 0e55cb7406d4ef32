//! Types that terms name and that are not there, or take another number of arguments.
ghost use Rattle.std.specs.Prelude.{◌≡◌, ◌||◌};
ghost use Rattle.vsd_lawful.specs.Tests.{any_among, any_named, is_unknown, is_miscounted};
ghost use Rattle.vsd_lawful.specs.Types.{signature_terms, long_form_terms, implementer_terms, override_terms};

use crate::Scope;
use vsd_ast::{Implementer, Override, Signature};
use vsd_terms::{Term, Terms};

/// What is wrong with the types that are named.
#[derive(Clone, Copy)]
pub struct Faults {
    /// One isn't declared.
    pub unknown: bool,
    /// One is declared and takes another number of arguments.
    pub arity: bool,
}

const NONE: Faults = Faults {
    unknown: false,
    arity: false,
};

fn either(a: Faults, b: Faults) -> Faults
    ensures unknown { result.unknown ≡ (a.unknown || b.unknown) }
    ensures arity { result.arity ≡ (a.arity || b.arity) }
{
    Faults {
        unknown: a.unknown || b.unknown,
        arity: a.arity || b.arity,
    }
}

fn of_type(scope: &Scope, name: u16, count: usize) -> Faults
    ensures unknown { result.unknown ≡ is_unknown scope.now.list.now (name, count) }
    ensures arity { result.arity ≡ is_miscounted scope.now.list.now (name, count) }
{
    match scope.declared(name) {
        Some(decl) => Faults {
            unknown: false,
            arity: decl.params.len() != count,
        },
        None => Faults {
            unknown: true,
            arity: false,
        },
    }
}

#[cycle(faults)]
pub(crate) fn of_term(scope: &Scope, t: &Term) -> Faults
    ensures unknown { result.unknown ≡ any_named (is_unknown scope.now.list.now) t.now }
    ensures arity { result.arity ≡ any_named (is_miscounted scope.now.list.now) t.now }
{
    match t {
        Term::Named { name, args } => either(
            of_type(scope, *name, args.len()),
            of_terms(scope, args),
        ),
        _ => NONE,
    }
}

#[cycle(faults)]
fn of_terms(scope: &Scope, ts: &Terms) -> Faults
    ensures unknown { result.unknown ≡ any_among (is_unknown scope.now.list.now) ts.now }
    ensures arity { result.arity ≡ any_among (is_miscounted scope.now.list.now) ts.now }
{
    let ts = ts.as_slice();
    let mut faults = NONE;
    for i in 0..ts.len() {
        faults = either(faults, of_term(scope, &ts[i]));
    }
    faults
}

pub(crate) fn of_signature(scope: &Scope, s: &Signature) -> Faults
    ensures unknown { result.unknown ≡ any_among (is_unknown scope.now.list.now) (signature_terms s.now) }
    ensures arity { result.arity ≡ any_among (is_miscounted scope.now.list.now) (signature_terms s.now) }
{
    match &s.result {
        Some(t) => either(of_term(scope, t), of_terms(scope, &s.arguments)),
        None => of_terms(scope, &s.arguments),
    }
}

fn of_long_form(scope: &Scope, s: &Option<Signature>) -> Faults
    ensures unknown { result.unknown ≡ any_among (is_unknown scope.now.list.now) (long_form_terms s.now) }
    ensures arity { result.arity ≡ any_among (is_miscounted scope.now.list.now) (long_form_terms s.now) }
{
    match s {
        Some(s) => of_signature(scope, s),
        None => NONE,
    }
}

fn of_implementer(scope: &Scope, body: &Implementer) -> Faults
    ensures unknown { result.unknown ≡ any_among (is_unknown scope.now.list.now) (implementer_terms body.now) }
    ensures arity { result.arity ≡ any_among (is_miscounted scope.now.list.now) (implementer_terms body.now) }
{
    match body {
        Implementer::Own(_) => NONE,
        Implementer::Named {
            owner,
            name: _,
            signature,
        } => either(of_term(scope, owner), of_signature(scope, signature)),
    }
}

#[tactic(auto, using(crate::proofs::TypeLemmas::any_named_append))]
pub(crate) fn of_override(scope: &Scope, o: &Override) -> Faults
    ensures unknown { result.unknown ≡ any_among (is_unknown scope.now.list.now) (override_terms o.now) }
    ensures arity { result.arity ≡ any_among (is_miscounted scope.now.list.now) (override_terms o.now) }
{
    let names = either(
        of_long_form(scope, &o.signature),
        of_implementer(scope, &o.body),
    );
    either(of_term(scope, &o.owner), names)
}
