//! What a class has for each method of an interface, from what its base has.
ghost use Rattle.std.specs.Prelude.{◌≡◌, ◌<◌, ◌≤◌, None, Some, length, IfOk, OnOk, false, true};
ghost use Rattle.vsd_check.specs.Checked.{decls_of, depths_of};
ghost use Rattle.vsd_types.specs.Types.{base_of, declaration_of, type_at};
ghost use Rattle.vsd_slots.specs.Columns.{AreEach, HasNone, IsBlank, IsColumn};
ghost use Rattle.vsd_slots.specs.Entries.{AreParts, IsCombined, IsHaving, IsStep};
ghost use Rattle.vsd_slots.specs.Kept.{AreKept};
ghost use Rattle.vsd_slots.specs.Named.{AreBuckets, AreNamed};
ghost use Rattle.vsd_methods.specs.Methods.{methods_in};
ghost use Rattle.vsd_slots.specs.Ragged.{Gains};

use crate::changing::change;
use crate::counting::count_methods;
use crate::entries::{Entry, NOTHING, Parts, combine, step};
use crate::kept::Kept;
use crate::named::{Named, buckets_at};
use crate::ragged::Ragged;
use sqlite_items::Items;
use std::alloc::{AllocError, Global};
use vsd_check::Checked;
use vsd_types::Closed;

// So many entries over no class.
fn blank(alloc: Global, count: u16) -> Result<Items<Entry>, AllocError>
    ensures { IfOk result (IsBlank count) }
{
    let mut found = Vec::with_capacity(alloc, usize::from(count))?;
    for _ in 0..count {
        found.push(NOTHING)?;
    }
    Ok(Items::from_vec(found))
}

// Adds what a class with nothing of its own for the interface has.
fn passed_on(has: bool, above: &[Entry], found: &mut Ragged) -> Result<(), AllocError>
    ensures { OnOk result (Gains (AreEach (λ m. IsCombined None None has) (length above.now) above.now) found.old found.new) }
{
    found.begin()?;
    for m in 0..above.len() {
        found.push(combine(None, None, has, above[m]))?;
    }
    Ok(())
}

// Adds what any class has.
fn stepped(
    checked: &Checked,
    closed: &Closed,
    parts: &Parts,
    named: &Named,
    t: u16,
    i: u16,
    has: bool,
    above: &[Entry],
    found: &mut Ragged,
) -> Result<(), AllocError>
    requires together { closed.now.decls ≡ decls_of checked.now }
    requires parts { AreParts closed.now (depths_of checked.now) parts.now.table.reached parts.now.table.maps parts.now.given }
    requires named { AreNamed closed.now.decls.list named.now }
    requires class { t < length closed.now.types }
    requires interface { i < length closed.now.types }
    requires having { IsHaving closed.now t i has }
    requires few { length above.now ≤ 256 }
    ensures { OnOk result (Gains (AreEach (IsStep closed.now t i) (length above.now) above.now) found.old found.new) }
{
    found.begin()?;
    for m in 0..above.len() {
        let entry = step(checked, closed, parts, named, t, i, m as u16, has, above[m]);
        found.push(entry)?;
    }
    Ok(())
}

/// Adds what class `t` has for the methods of interface `i`, from what its base has. `has` tells whether the class has the
/// interface itself, and `bare` that it has nothing of its own for it.
pub(crate) fn column(
    checked: &Checked,
    closed: &Closed,
    parts: &Parts,
    named: &Named,
    t: u16,
    i: u16,
    has: bool,
    bare: bool,
    above: &[Entry],
    found: &mut Ragged,
) -> Result<(), AllocError>
    requires together { closed.now.decls ≡ decls_of checked.now }
    requires parts { AreParts closed.now (depths_of checked.now) parts.now.table.reached parts.now.table.maps parts.now.given }
    requires named { AreNamed closed.now.decls.list named.now }
    requires class { t < length closed.now.types }
    requires interface { i < length closed.now.types }
    requires having { IsHaving closed.now t i has }
    requires bare { bare ≡ true → HasNone closed.now t i }
    requires above { IsColumn closed.now (base_of closed.now.decls.list (type_at closed.now.types t)) i above.now }
    ensures { OnOk result (Gains (IsColumn closed.now (Some (type_at closed.now.types t)) i) found.old found.new) }
{
    if bare {
        return passed_on(has, above, found);
    }
    let _few = count_methods(checked, closed, i);
    stepped(checked, closed, parts, named, t, i, has, above, found)
}

// What the base of class `t` has for the methods of interface `i`, whose names fall into these buckets.
fn column_over(
    alloc: Global,
    checked: &Checked,
    closed: &Closed,
    parts: &Parts,
    named: &Named,
    buckets: &[u8],
    columns: &Ragged,
    kept: &Kept,
    t: u16,
    i: u16,
) -> Result<Items<Entry>, AllocError>
    requires together { closed.now.decls ≡ decls_of checked.now }
    requires parts { AreParts closed.now (depths_of checked.now) parts.now.table.reached parts.now.table.maps parts.now.given }
    requires named { AreNamed closed.now.decls.list named.now }
    requires buckets { AreBuckets (methods_in (declaration_of closed.now.decls.list (type_at closed.now.types i))) buckets.now }
    requires kept { AreKept closed.now columns.now kept.now }
    requires class { t < length closed.now.types }
    requires interface { i < length closed.now.types }
    ensures { IfOk result (IsColumn closed.now (base_of closed.now.decls.list (type_at closed.now.types t)) i) }
{
    match closed.base(t) {
        None => blank(alloc, count_methods(checked, closed, i)),
        Some(base) => {
            if let Some(number) = kept.number(base, i) {
                return Items::from_slice(alloc, columns.list(number));
            }
            let mut found = column_over(
                alloc, checked, closed, parts, named, buckets, columns, kept, base, i,
            )?;
            change(checked, closed, parts, named, buckets, base, i, &mut found);
            Ok(found)
        }
    }
}

/// What the base of class `t` has for the methods of interface `i`, from the nearest class above of which that is kept.
pub(crate) fn column_above(
    alloc: Global,
    checked: &Checked,
    closed: &Closed,
    parts: &Parts,
    named: &Named,
    columns: &Ragged,
    kept: &Kept,
    t: u16,
    i: u16,
) -> Result<Items<Entry>, AllocError>
    requires together { closed.now.decls ≡ decls_of checked.now }
    requires parts { AreParts closed.now (depths_of checked.now) parts.now.table.reached parts.now.table.maps parts.now.given }
    requires named { AreNamed closed.now.decls.list named.now }
    requires kept { AreKept closed.now columns.now kept.now }
    requires class { t < length closed.now.types }
    requires interface { i < length closed.now.types }
    ensures { IfOk result (IsColumn closed.now (base_of closed.now.decls.list (type_at closed.now.types t)) i) }
{
    let buckets = buckets_at(closed, named, i);
    column_over(
        alloc, checked, closed, parts, named, buckets, columns, kept, t, i,
    )
}
