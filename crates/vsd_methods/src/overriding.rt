//! Overrides of closed classes.
ghost use Rattle.std.specs.Prelude.{◌≡◌, ◌<◌, ◌≤◌, All, Contains, IfOk, IfSome, None, Some, length, slice_get};
ghost use Rattle.std.specs.List.{position_from};
ghost use Rattle.vsd_ast.specs.WellFormed.{IsOverride};
ghost use Rattle.vsd_ast.specs.declared.declarations.Method.{Method};
ghost use Rattle.vsd_check.specs.Checked.{decls_of};
ghost use Rattle.vsd_terms.specs.declared.term.Term.{Term};
ghost use Rattle.vsd_terms.specs.Substitution.{parameters_of, subst_of};
ghost use Rattle.vsd_types.specs.Types.{args_of, declaration_of, type_at};
ghost use Rattle.vsd_methods.specs.Givens.{AreGiven, IsGiven, IsGivenFor, answer_of};
ghost use Rattle.vsd_methods.specs.Methods.{Fits, IsOwnWithin, first_given, given_by, has_signature, is_meant, methods_in};

use crate::declared::declaration_at;
use crate::offering::place_of_method;
use crate::signatures::{is_signature_at, same_signature};
use sqlite_items::Items;
use std::alloc::{AllocError, Global};
use vsd_ast::{Implementer, Method, Override, Signature};
use vsd_check::Checked;
use vsd_terms::{Term, Terms, subst};
use vsd_types::Closed;

/// What an override of a closed class gives.
#[derive(Clone, Copy, Debug, Drop)]
pub struct Given {
    /// The number of the interface.
    pub interface: u16,
    /// The place of the interface's method.
    pub slot: u16,
    /// The place of the class's method.
    pub given: u16,
}

// The place of the method that an override of the class gives.
fn given_by(methods: &[Method], body: &Implementer) -> Option<u16>
    requires few { length methods.now ≤ 256 }
    requires own { IsOwnWithin (length methods.now) body.now }
    ensures place { result ≡ given_by methods.now body.now }
    ensures within { IfSome result (λ place. place < length methods.now) }
{
    match body {
        Implementer::Own(place) => Some(*place),
        Implementer::Named {
            name,
            signature,
            ..
        } => place_of_method(methods, name.as_slice(), signature),
    }
}

// Whether a method of an override's owner, which has these arguments, has the signature that the override wants.
fn has_signature(
    written: &Option<Signature>,
    owner_args: &Terms,
    given: &Method,
    m: &Method,
) -> bool
    requires { Fits (length owner_args.now) m.now.signature }
    ensures { result ≡ has_signature owner_args.now written.now (Some given.now) m.now }
{
    match written {
        Some(signature) => same_signature(&m.signature, signature),
        None => is_signature_at(&given.signature, &m.signature, owner_args),
    }
}

// Whether an override that gives this method is for the method of its owner, which has these arguments.
fn is_meant(o: &Override, owner_args: &Terms, given: &Method, m: &Method) -> bool
    requires { Fits (length owner_args.now) m.now.signature }
    ensures { result ≡ is_meant o.now owner_args.now (Some given.now) m.now }
{
    m.name.as_slice() == o.name.as_slice() && has_signature(&o.signature, owner_args, given, m)
}

// The place of the method that it is for.
fn slot_in(methods: &[Method], o: &Override, owner_args: &Terms, given: &Method) -> Option<u16>
    requires few { length methods.now ≤ 256 }
    requires fit { All (λ (m : Method). Fits (length owner_args.now) m.signature) methods.now }
    ensures { result ≡ position_from (is_meant o.now owner_args.now (Some given.now)) 0 methods.now }
{
    for i in 0..methods.len() {
        if is_meant(o, owner_args, given, &methods[i]) {
            return Some(i as u16);
        }
    }
    None
}

// The number of a term at arguments, where it is listed.
fn number_at(
    alloc: Global,
    closed: &Closed,
    t: &Term,
    args: &Terms,
) -> Result<Option<u16>, AllocError>
    requires { parameters_of t.now ≤ length args.now }
    ensures number { IfOk result (λ found. IfSome found (λ n. slice_get closed.now.types n ≡ Some (subst_of args.now t.now))) }
    ensures none { IfOk result (λ found. found ≡ None → Contains closed.now.types (subst_of args.now t.now) → ⊥) }
{
    let made = subst(alloc, t, args)?;
    Ok(closed.number(&made))
}

// What an override gives for the methods of its owner, which is the interface of this number.
fn given_for(
    checked: &Checked,
    closed: &Closed,
    methods: &[Method],
    o: &Override,
    owner_args: &Terms,
    number: u16,
) -> Option<Given>
    requires together { closed.now.decls ≡ decls_of checked.now }
    requires few { length methods.now ≤ 256 }
    requires own { IsOwnWithin (length methods.now) o.now.body }
    requires listed { number < length closed.now.types }
    requires long { length owner_args.now ≡ length (args_of (type_at closed.now.types number)) }
    ensures { IsGivenFor closed.now.decls.list (type_at closed.now.types number) methods.now o.now owner_args.now number result }
{
    let interface = declaration_at(checked, closed, number)?;
    let given = given_by(methods, &o.body)?;
    let slot = slot_in(
        interface.decl.methods.as_slice(),
        o,
        owner_args,
        &methods[given as usize],
    )?;
    Some(Given {
        interface: number,
        slot,
        given,
    })
}

// What an override of a class with these methods and arguments gives.
fn given_of(
    alloc: Global,
    checked: &Checked,
    closed: &Closed,
    methods: &[Method],
    args: &Terms,
    o: &Override,
) -> Result<Option<Given>, AllocError>
    requires together { closed.now.decls ≡ decls_of checked.now }
    requires few { length methods.now ≤ 256 }
    requires written { IsOverride (length closed.now.decls.names) (length args.now) (length methods.now) o.now }
    ensures { IfOk result (λ found. (t : Term) → args_of t ≡ args.now → methods_in (declaration_of closed.now.decls.list t) ≡ methods.now → IsGiven closed.now.decls.list closed.now.types t o.now found) }
{
    let _count = closed.count();
    let Term::Named {
        args: owner_args,
        ..
    } = &o.owner
    else {
        return Ok(None);
    };
    match number_at(alloc, closed, &o.owner, args)? {
        Some(number) => Ok(given_for(checked, closed, methods, o, owner_args, number)),
        None => Ok(None),
    }
}

/// What the overrides of a type give, in order.
pub fn overrides_of(
    alloc: Global,
    checked: &Checked,
    closed: &Closed,
    t: u16,
) -> Result<Items<Option<Given>>, AllocError>
    requires together { closed.now.decls ≡ decls_of checked.now }
    requires within { t < length closed.now.types }
    ensures { IfOk result (AreGiven closed.now.decls.list closed.now.types (type_at closed.now.types t)) }
{
    let mut found = Items::new(alloc);
    let Some(class) = declaration_at(checked, closed, t) else {
        return Ok(found);
    };
    let methods = class.decl.methods.as_slice();
    let overrides = class.decl.overrides.as_slice();
    for o in overrides {
        found.push(given_of(alloc, checked, closed, methods, class.args, o)?)?;
    }
    Ok(found)
}

/// What the first override for the `m`-th method of interface `i` gives.
pub fn first_given(given: &[Option<Given>], i: u16, m: u16) -> Option<u16>
    ensures { result ≡ first_given (λ g. answer_of g i m) given.now }
{
    for k in 0..given.len() {
        if let Some(g) = given[k] {
            if g.interface == i && g.slot == m {
                return Some(g.given);
            }
        }
    }
    None
}
