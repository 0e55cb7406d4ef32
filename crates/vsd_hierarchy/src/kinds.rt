//! What may stand as a base, and what as an interface.
ghost use Rattle.std.specs.Prelude.{◌≡◌, ◌↔◌, IsTrue};
ghost use Rattle.vsd_ast.specs.Lookup.{head_of, is_value_head, is_value_type};
ghost use Rattle.vsd_least.specs.Least.{IsLeast};
ghost use Rattle.vsd_hierarchy.specs.Kinds.{IsUnfit, HasBadBase, IsNoInterface, ShowsBadBase, ShowsBadInterface};

use vsd_ast::{Decl, Located};
use vsd_lawful::Scope;
use vsd_least::{earlier, shown};
use vsd_terms::{Builtin, Term};

fn is_value_type(decl: &Decl) -> bool
    ensures { result ≡ is_value_type decl.now }
{
    match &decl.base {
        Some(base) => is_value_base(&base.term),
        None => false,
    }
}

fn is_value_base(base: &Term) -> bool
    ensures { result ≡ is_value_head (head_of base.now) }
{
    match base {
        Term::Builtin(Builtin::ValueType) => true,
        _ => false,
    }
}

fn is_unfit(scope: &Scope, base: &Term) -> bool
    ensures { IsTrue result ↔ IsUnfit scope.now.list.now (head_of base.now) }
{
    match base {
        Term::Named { name, args: _ } => match scope.declared(*name) {
            Some(decl) => decl.is_interface || decl.sealed || is_value_type(decl),
            None => false,
        },
        Term::Param(_) => false,
        Term::Builtin(builtin) => *builtin == Builtin::String,
    }
}

fn has_bad_base(scope: &Scope, decl: &Decl) -> bool
    ensures { IsTrue result ↔ HasBadBase scope.now.list.now decl.now }
{
    match &decl.base {
        Some(base) => decl.is_interface || is_unfit(scope, &base.term),
        None => false,
    }
}

/// The line of an interface that has a base, or of a class whose base is an interface, a sealed class, a value type or
/// `string` (II.10.1.4, II.12, II.13).
pub fn bad_base(scope: &Scope, decl: &Decl) -> Option<u32>
    ensures { IsLeast (ShowsBadBase scope.now.list.now decl.now) result }
{
    shown(has_bad_base(scope, decl), decl.line)
}

fn is_no_interface(scope: &Scope, term: &Term) -> bool
    ensures { IsTrue result ↔ IsNoInterface scope.now.list.now (head_of term.now) }
{
    match term {
        Term::Named { name, args: _ } => match scope.declared(*name) {
            Some(decl) => !decl.is_interface,
            None => false,
        },
        _ => true,
    }
}

/// The first line at which the declaration names as an interface what is none (II.22.23).
pub fn bad_interface(scope: &Scope, decl: &Decl) -> Option<u32>
    ensures { IsLeast (ShowsBadInterface scope.now.list.now decl.now) result }
{
    let mut found = None;
    for interface in decl.interfaces.as_slice() {
        found = earlier(
            found,
            shown(is_no_interface(scope, &interface.term), interface.line),
        );
    }
    found
}
