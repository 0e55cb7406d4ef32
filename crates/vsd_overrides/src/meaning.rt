//! What an override says, whether or not its class has the interface.
ghost use Rattle.std.specs.Prelude.{◌≡◌, ℕ, ◌≤◌, ◌↔◌, length, IsTrue, MatchOption};
ghost use Rattle.vsd_ast.specs.Lookup.{head_of, is_lawful, named};
ghost use Rattle.vsd_ast.specs.WellFormed.{IsDeclaration, IsImplementer, IsOverride};
ghost use Rattle.vsd_ast.specs.declared.declarations.Method.{Method};
ghost use Rattle.vsd_lift.specs.Settled.{IsSettled};
ghost use Rattle.vsd_overrides.specs.Implements.{Agrees, IsBody, Means};
ghost use Rattle.vsd_overrides.specs.Targets.{MeansNothing};
ghost use Rattle.vsd_overrides.specs.declared.target.Target.{Target};

use crate::Target;
use crate::matched::{meant_method, named_method};
use crate::signatures::is_signature_at;
use vsd_ast::{Decl, Implementer, Override};
use vsd_lift::Hierarchy;
use vsd_terms::{Term, Terms};

// Whether the type is one of this name.
fn is_of(t: &Term, name: u16) -> bool
    ensures { IsTrue result ↔ (head_of t.now ≡ named name) }
{
    match t {
        Term::Named { name: other, .. } => *other == name,
        _ => false,
    }
}

// The place of the method of the declaration that implements.
fn body_of(decl: &Decl, body: &Implementer) -> Option<u16>
    requires few { length decl.now.methods ≤ 256 }
    requires written { (names : ℕ) × IsImplementer names (length decl.now.params) (length decl.now.methods) body.now }
    ensures { MatchOption result ((place : ℕ) (m : Method) → ¬ IsBody decl.now body.now place m)
        (λ place. (m : Method) × IsBody decl.now body.now place m) }
{
    match body {
        Implementer::Own(place) => Some(*place),
        Implementer::Named {
            owner,
            name,
            signature,
        } => {
            if !is_of(owner, decl.name) {
                return None;
            }
            named_method(decl.methods.as_slice(), name.as_slice(), signature)
        }
    }
}

// The methods that the override pairs, where its owner is the interface, the declaration at `place`, at the arguments.
fn agreeing(o: &Override, args: &Terms, decl: &Decl, place: u16, interface: &Decl) -> Option<Target>
    requires few { length decl.now.methods ≤ 256 }
    requires written { (names : ℕ) × IsOverride names (length decl.now.params) (length decl.now.methods) o.now }
    requires declared { (names : ℕ) × IsDeclaration names interface.now }
    requires long { length args.now ≡ length interface.now.params }
    ensures { MatchOption result ((t : Target) → ¬ Agrees decl.now o.now args.now interface.now t)
        (λ t. (t.interface ≡ place) × Agrees decl.now o.now args.now interface.now t) }
{
    let Some(body) = body_of(decl, &o.body) else {
        return None;
    };
    let implementing = &decl.methods.as_slice()[body as usize].signature;
    let Some(slot) = meant_method(o, args, implementing, interface.methods.as_slice()) else {
        return None;
    };
    let implemented = &interface.methods.as_slice()[slot as usize].signature;
    if !is_signature_at(implementing, implemented, args) {
        return None;
    }
    Some(Target {
        interface: place,
        slot,
        body,
    })
}

/// What an override of the declaration says. None where its words alone leave it without something to implement.
pub(crate) fn meaning(h: &Hierarchy<'_>, decl: &Decl, o: &Override) -> Option<Target>
    requires settled { IsSettled h.now.decls.now h.now.places.now h.now.depths.now }
    requires declared { IsDeclaration (length h.now.places.now) decl.now }
    requires written { IsOverride (length h.now.places.now) (length decl.now.params) (length decl.now.methods) o.now }
    requires lawful { IsTrue (is_lawful h.now.decls.now o.now.owner) }
    ensures { MatchOption result (MeansNothing h.now.decls.now decl.now o.now) (Means h.now.decls.now decl.now o.now) }
{
    if decl.is_interface {
        return None;
    }
    let Term::Named { name, args } = &o.owner else {
        return None;
    };
    let place = h.places[*name as usize];
    let interface = &h.decls[place as usize];
    if !interface.is_interface {
        return None;
    }
    agreeing(o, args, decl, place, interface)
}
