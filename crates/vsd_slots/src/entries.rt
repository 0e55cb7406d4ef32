//! What implements a method of an interface in a closed class.
ghost use Rattle.std.specs.Prelude.{◌≡◌, ◌<◌, None, length, true, IfOk};
ghost use Rattle.vsd_check.specs.Checked.{decls_of, depths_of};
ghost use Rattle.vsd_slots.specs.Named.{AreNamed};
ghost use Rattle.vsd_slots.specs.Entries.{AreParts, IsBare, IsCombined, IsHaving, IsStep, method_at};

use crate::named::Named;
use sqlite_items::Items;
use std::alloc::{AllocError, Global};
use vsd_check::Checked;
use vsd_interfaces::{Table, own, tabulate};
use vsd_methods::{Given, declaration_at, first_given, naming, overrides_of};
use vsd_types::Closed;

/// A method of a closed class: the number of the class, and the method's place among those of its declaration.
#[derive(Clone, Copy, Debug, PartialEq, Eq, Drop)]
pub struct ClosedMethod {
    pub class: u16,
    pub method: u16,
}

/// What a class has for a method of an interface.
#[derive(Clone, Copy, Debug, Drop)]
pub(crate) struct Entry {
    /// The method that implements it.
    pub(crate) implementation: Option<ClosedMethod>,
    /// The public virtual method of its name and signature, in the nearest class from this one upward that has one.
    pub(crate) nearest: Option<ClosedMethod>,
}

/// The entry over no class.
pub(crate) const NOTHING: Entry = Entry {
    implementation: None,
    nearest: None,
};

/// The parts that entries are made from.
#[derive(Drop)]
pub(crate) struct Parts {
    pub(crate) table: Table,
    /// For each type what its overrides give.
    pub(crate) given: Items<Items<Option<Given>>>,
}

/// The parts, for a closed list.
pub(crate) fn gather(alloc: Global, checked: &Checked, closed: &Closed) -> Result<Parts, AllocError>
    requires together { closed.now.decls ≡ decls_of checked.now }
    ensures { IfOk result (λ p. AreParts closed.now (depths_of checked.now) p.table.reached p.table.maps p.given) }
{
    let _decls = checked.decls();
    let table = tabulate(alloc, checked, closed)?;
    let mut given = Items::new(alloc);
    for t in 0..closed.count() {
        given.push(overrides_of(alloc, checked, closed, t)?)?;
    }
    Ok(Parts { table, given })
}

fn method_at(t: u16, place: Option<u16>) -> Option<ClosedMethod>
    ensures { result ≡ method_at t place }
{
    match place {
        Some(method) => Some(ClosedMethod { class: t, method }),
        None => None,
    }
}

/// The entry of a class, from its own methods and the entry of the class above.
pub(crate) fn combine(
    own: Option<ClosedMethod>,
    named: Option<ClosedMethod>,
    has: bool,
    above: Entry,
) -> Entry
    ensures { IsCombined own named has above result }
{
    let implementation = if has {
        own.or(named).or(above.implementation).or(above.nearest)
    } else {
        own.or(above.implementation)
    };
    Entry {
        implementation,
        nearest: named.or(above.nearest),
    }
}

/// Whether class `t` has interface `i` by what it names itself.
pub(crate) fn has_itself(checked: &Checked, closed: &Closed, parts: &Parts, t: u16, i: u16) -> bool
    requires parts { AreParts closed.now (depths_of checked.now) parts.now.table.reached parts.now.table.maps parts.now.given }
    requires class { t < length closed.now.types }
    requires interface { i < length closed.now.types }
    ensures { IsHaving closed.now t i result }
{
    let _decls = checked.decls();
    let _count = closed.count();
    own(closed, parts.table.reached.as_slice(), t).contains(&i)
}

/// Whether a class has neither methods nor overrides, and so nothing of its own for any interface.
pub(crate) fn is_bare(checked: &Checked, closed: &Closed, parts: &Parts, t: u16) -> bool
    requires together { closed.now.decls ≡ decls_of checked.now }
    requires parts { AreParts closed.now (depths_of checked.now) parts.now.table.reached parts.now.table.maps parts.now.given }
    requires class { t < length closed.now.types }
    ensures { result ≡ true → IsBare closed.now t }
{
    if !parts.given.as_slice()[t as usize].is_empty() {
        return false;
    }
    match declaration_at(checked, closed, t) {
        Some(class) => class.decl.methods.is_empty(),
        None => true,
    }
}

/// The entry of class `t` for the `m`-th method of interface `i`, from the entry of its base.
pub(crate) fn step(
    checked: &Checked,
    closed: &Closed,
    parts: &Parts,
    named: &Named,
    t: u16,
    i: u16,
    m: u16,
    has: bool,
    above: Entry,
) -> Entry
    requires together { closed.now.decls ≡ decls_of checked.now }
    requires parts { AreParts closed.now (depths_of checked.now) parts.now.table.reached parts.now.table.maps parts.now.given }
    requires named { AreNamed closed.now.decls.list named.now }
    requires class { t < length closed.now.types }
    requires interface { i < length closed.now.types }
    requires having { IsHaving closed.now t i has }
    ensures { IsStep closed.now t i m above result }
{
    let overriding = first_given(parts.given.as_slice()[t as usize].as_slice(), i, m);
    let named = naming(checked, closed, named.names.as_slice(), t, i, m);
    combine(method_at(t, overriding), method_at(t, named), has, above)
}
