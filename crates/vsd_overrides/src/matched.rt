//! The first method of a list that an override asks for.
ghost use Rattle.std.specs.Prelude.{◌≡◌, ℕ, ◌≤◌, ◌↔◌, length, All, IsTrue, MatchOption};
ghost use Rattle.vsd_ast.specs.WellFormed.{IsMethod};
ghost use Rattle.vsd_ast.specs.declared.declarations.Method.{Method};
ghost use Rattle.vsd_overrides.specs.Matched.{IsFirstWith, IsMeant, IsNamed};
ghost use Rattle.vsd_ways.specs.Found.{SomeOf};

use crate::signatures::{is_signature_at, same_signature};
use vsd_ast::{Method, Override, Signature};
use vsd_terms::Terms;

fn is_named(method: &Method, name: &[u8], signature: &Signature) -> bool
    ensures { IsTrue result ↔ IsNamed name.now signature.now method.now }
{
    method.name.as_slice() == name && same_signature(&method.signature, signature)
}

/// The place of the first method of this name and signature.
pub(crate) fn named_method(methods: &[Method], name: &[u8], signature: &Signature) -> Option<u16>
    requires { length methods.now ≤ 256 }
    ensures { MatchOption result (SomeOf (IsNamed name.now signature.now) methods.now → ⊥)
        (λ place. (m : Method) × IsFirstWith (IsNamed name.now signature.now) methods.now place m) }
{
    for i in 0..methods.len() {
        if is_named(&methods[i], name, signature) {
            return Some(i as u16);
        }
    }
    None
}

// Whether the override gives this method of its owner, where a method of this signature implements it.
fn is_meant(o: &Override, args: &Terms, implementing: &Signature, method: &Method) -> bool
    requires { (names : ℕ) × IsMethod names (length args.now) method.now }
    ensures { IsTrue result ↔ IsMeant o.now args.now implementing.now method.now }
{
    if method.name.as_slice() != o.name.as_slice() {
        return false;
    }
    match &o.signature {
        Some(given) => same_signature(&method.signature, given),
        None => is_signature_at(implementing, &method.signature, args),
    }
}

/// The place of the first of the owner's methods that the override gives, where a method of this signature implements it.
pub(crate) fn meant_method(
    o: &Override,
    args: &Terms,
    implementing: &Signature,
    methods: &[Method],
) -> Option<u16>
    requires few { length methods.now ≤ 256 }
    requires written { (names : ℕ) × All (IsMethod names (length args.now)) methods.now }
    ensures { MatchOption result (SomeOf (IsMeant o.now args.now implementing.now) methods.now → ⊥)
        (λ place. (m : Method) × IsFirstWith (IsMeant o.now args.now implementing.now) methods.now place m) }
{
    for i in 0..methods.len() {
        if is_meant(o, args, implementing, &methods[i]) {
            return Some(i as u16);
        }
    }
    None
}
