//! Methods that override final ones.
ghost use Rattle.std.specs.Prelude.{◌≡◌, ◌↔◌, Some, slice_get, IsTrue};
ghost use Rattle.vsd_ast.specs.declared.declarations.Method.{Method};
ghost use Rattle.vsd_least.specs.Least.{IsLeast};
ghost use Rattle.vsd_lift.specs.Settled.{IsSettled};
ghost use Rattle.vsd_roots.specs.Final.{OverridesFinal, ShowsFinal};
ghost use Rattle.vsd_roots.specs.Methods.{IsMethod, Tabulates};
ghost use Rattle.vsd_roots.specs.Slots.{IsOverridden};

use crate::Place;
use crate::rows::entry_of;
use sqlite_items::Items;
use vsd_ast::{Decl, Method};
use vsd_least::{earlier, shown};
use vsd_lift::Hierarchy;

// The method at a place.
fn method_of<'a>(decls: &'a [Decl], at: Place) -> &'a Method
    requires { (m : Method) × IsMethod decls.now at m }
    ensures { IsMethod decls.now at result.now }
{
    &decls[at.decl as usize].methods.as_slice()[at.method as usize]
}

// Whether what the method overrides is final.
fn is_above_final(decls: &[Decl], overridden: &[Items<Option<Place>>], at: Place) -> bool
    requires is { (m : Method) × IsMethod decls.now at m }
    requires overridden { Tabulates decls.now (IsOverridden decls.now) overridden.now }
    ensures { IsTrue result ↔ OverridesFinal decls.now at }
{
    match entry_of(overridden, at) {
        Some(above) => method_of(decls, above).is_final,
        None => false,
    }
}

/// The least line of a method of the declaration that overrides a final method (ECMA-335, II.15.4.2.2).
pub fn overrides_final(
    h: &Hierarchy<'_>,
    overridden: &[Items<Option<Place>>],
    place: usize,
    decl: &Decl,
) -> Option<u32>
    requires settled { IsSettled h.now.decls.now h.now.places.now h.now.depths.now }
    requires there { slice_get h.now.decls.now place ≡ Some decl.now }
    requires overridden { Tabulates h.now.decls.now (IsOverridden h.now.decls.now) overridden.now }
    ensures { IsLeast (ShowsFinal h.now.decls.now place decl.now) result }
{
    let methods = decl.methods.as_slice();
    let mut found = None;
    for method in 0..methods.len() {
        let at = Place {
            decl: place as u16,
            method: method as u16,
        };
        let above = is_above_final(h.decls, overridden, at);
        found = earlier(found, shown(above, methods[method].line));
    }
    found
}
