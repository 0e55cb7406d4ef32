//! Methods by name and signature.
ghost use Rattle.std.specs.Prelude.{◌≡◌, ◌&&◌, ◌<◌, ◌≤◌, All, bytes_eq, drop, length};
ghost use Rattle.std.specs.List.{position_from};
ghost use Rattle.vsd_ast.specs.declared.declarations.Method.{Method};
ghost use Rattle.vsd_check.specs.Checked.{decls_of};
ghost use Rattle.vsd_types.specs.Types.{type_at};
ghost use Rattle.vsd_methods.specs.Firsts.{AreMethodNames, AreNamesOf};
ghost use Rattle.vsd_methods.specs.Methods.{Fits, is_public, naming, offers_at, same_signature};

use crate::declared::declaration_at;
use crate::names::names_at;
use crate::signatures::{same_signature, same_signature_under};
use vsd_ast::{Access, Method, Signature};
use vsd_check::Checked;
use vsd_terms::{Names, Terms};
use vsd_types::Closed;

/// The place of the first method of this name and signature.
pub(crate) fn place_of_method(methods: &[Method], name: &[u8], signature: &Signature) -> Option<u16>
    requires { length methods.now ≤ 256 }
    ensures { result ≡ position_from (λ (p : Method). bytes_eq p.name name.now && same_signature p.signature signature.now) 0 methods.now }
{
    for i in 0..methods.len() {
        if methods[i].name.as_slice() == name && same_signature(&methods[i].signature, signature) {
            return Some(i as u16);
        }
    }
    None
}

fn is_public(access: Access) -> bool
    ensures { result ≡ is_public access }
{
    match access {
        Access::Public => true,
        _ => false,
    }
}

// Whether a class offers its method for the interface's, at the arguments of both.
fn offers(p: &Method, args: &Terms, m: &Method, interface_args: &Terms) -> bool
    requires class_fits { Fits (length args.now) p.now.signature }
    requires interface_fits { Fits (length interface_args.now) m.now.signature }
    ensures { result ≡ offers_at interface_args.now m.now args.now p.now }
{
    is_public(p.access)
        && p.name.as_slice() == m.name.as_slice()
        && same_signature_under(&p.signature, args, &m.signature, interface_args)
}

// The first offered of those from a place on, where none before it is.
fn offered_from(
    methods: &[Method],
    args: &Terms,
    m: &Method,
    interface_args: &Terms,
    first: usize,
) -> Option<u16>
    requires few { length methods.now ≤ 256 }
    requires class_fits { All (λ (p : Method). Fits (length args.now) p.signature) methods.now }
    requires interface_fits { Fits (length interface_args.now) m.now.signature }
    requires before { position_from (offers_at interface_args.now m.now args.now) 0 methods.now ≡ position_from (offers_at interface_args.now m.now args.now) first (drop first methods.now) }
    ensures { result ≡ position_from (offers_at interface_args.now m.now args.now) 0 methods.now }
{
    for i in first..methods.len() {
        if offers(&methods[i], args, m, interface_args) {
            return Some(i as u16);
        }
    }
    None
}

fn first_offered(
    methods: &[Method],
    names: &Names,
    args: &Terms,
    m: &Method,
    interface_args: &Terms,
) -> Option<u16>
    requires few { length methods.now ≤ 256 }
    requires names { AreNamesOf methods.now names.now }
    requires class_fits { All (λ (p : Method). Fits (length args.now) p.signature) methods.now }
    requires interface_fits { Fits (length interface_args.now) m.now.signature }
    ensures { result ≡ position_from (offers_at interface_args.now m.now args.now) 0 methods.now }
{
    match names.find(m.name.as_slice()) {
        Some(first) => offered_from(methods, args, m, interface_args, usize::from(first)),
        None => None,
    }
}

/// The place of the first public virtual method of class `t` that has the name and the signature of the `m`-th method of
/// interface `i` (ECMA-335, II.12.2). Takes no memory.
pub fn naming(
    checked: &Checked,
    closed: &Closed,
    names: &[Names],
    t: u16,
    i: u16,
    m: u16,
) -> Option<u16>
    requires together { closed.now.decls ≡ decls_of checked.now }
    requires names { AreMethodNames closed.now.decls.list names.now }
    requires class { t < length closed.now.types }
    requires interface { i < length closed.now.types }
    ensures { result ≡ naming closed.now.decls.list (type_at closed.now.types i) m (type_at closed.now.types t) }
{
    let Some(class) = declaration_at(checked, closed, t) else {
        return None;
    };
    let Some(interface) = declaration_at(checked, closed, i) else {
        return None;
    };
    let Some(own_names) = names_at(closed, names, t) else {
        return None;
    };
    let wanted = interface.decl.methods.as_slice();
    if usize::from(m) >= wanted.len() {
        return None;
    }
    first_offered(
        class.decl.methods.as_slice(),
        own_names,
        class.args,
        &wanted[m as usize],
        interface.args,
    )
}
