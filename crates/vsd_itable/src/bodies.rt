//! What the slot of a method holds in a closed class.
ghost use Rattle.std.specs.Prelude.{◌≡◌, ◌<◌, ◌≤◌, ◌↔◌, IsTrue, Some, length, slice_get};
ghost use Rattle.vsd_ast.specs.declared.declarations.Decl.{Decl};
ghost use Rattle.vsd_ast.specs.declared.declarations.Method.{Method};
ghost use Rattle.vsd_check.specs.Checked.{decls_of};
ghost use Rattle.vsd_roots.specs.Methods.{IsMethod};
ghost use Rattle.vsd_roots.specs.Slots.{IsRoot};
ghost use Rattle.vsd_itable.specs.Places.{IsBodyAt, IsLastWith, IsOwnBody};

use vsd_check::Checked;
use vsd_slots::{ClosedMethod, count_methods};
use vsd_types::Closed;

// Whether a method has a root.
fn has_root(checked: &Checked, decl: u16, method: u16, root: (u16, u16)) -> bool
    requires { (m : Method) × IsMethod (decls_of checked.now).list (record { decl = decl; method = method }) m }
    ensures { IsTrue result ↔ IsRoot (decls_of checked.now).list (record { decl = decl; method = method }) (record { decl = root.0; method = root.1 }) }
{
    let at = checked.root(decl, method);
    at.0 == root.0 && at.1 == root.1
}

// The last method of a declaration, of its first ones, that has a root.
fn last_with_root(checked: &Checked, decl: u16, count: u16, root: (u16, u16)) -> Option<u16>
    requires { (x : Decl) × (slice_get (decls_of checked.now).list decl ≡ Some x) × (count ≤ length x.methods) }
    ensures { IsLastWith (decls_of checked.now).list decl (record { decl = root.0; method = root.1 }) count result }
{
    for later in 0..count {
        let method = count - 1 - later;
        if has_root(checked, decl, method, root) {
            return Some(method);
        }
    }
    None
}

// The last method of a class that has a root.
fn own_body(checked: &Checked, closed: &Closed, t: u16, root: (u16, u16)) -> Option<u16>
    requires together { closed.now.decls ≡ decls_of checked.now }
    requires class { t < length closed.now.types }
    ensures { IsOwnBody closed.now t (record { decl = root.0; method = root.1 }) result }
{
    let decl = closed.declaration(t)?;
    last_with_root(checked, decl, count_methods(checked, closed, t), root)
}

/// The method with a root in the nearest class from `t` upward that has one, the later one of two in one class. Takes no
/// memory.
pub(crate) fn body_at(
    checked: &Checked,
    closed: &Closed,
    t: u16,
    root: (u16, u16),
) -> Option<ClosedMethod>
    requires together { closed.now.decls ≡ decls_of checked.now }
    requires class { t < length closed.now.types }
    ensures { IsBodyAt closed.now t (record { decl = root.0; method = root.1 }) result }
{
    let _decls = checked.decls();
    match own_body(checked, closed, t, root) {
        Some(method) => Some(ClosedMethod { class: t, method }),
        None => match closed.base(t) {
            Some(base) => body_at(checked, closed, base, root),
            None => None,
        },
    }
}
