//! Entries of a class, made in place of those of its base.
ghost use Rattle.std.specs.Prelude.{◌≡◌, ◌<◌, ◌≤◌, Some, length, false};
ghost use Rattle.vsd_check.specs.Checked.{decls_of, depths_of};
ghost use Rattle.vsd_types.specs.Types.{base_of, declaration_of, type_at};
ghost use Rattle.vsd_slots.specs.Columns.{AreEach, IsColumn, IsMadeAt};
ghost use Rattle.vsd_slots.specs.Entries.{AreParts, HasNothing, IsHaving, IsStep};
ghost use Rattle.vsd_slots.specs.Named.{AreBuckets, AreNamed};
ghost use Rattle.vsd_slots.specs.Marks.{AreMarked};
ghost use Rattle.vsd_methods.specs.Methods.{methods_in};

use crate::counting::count_methods;
use crate::entries::{Entry, Parts, combine, has_itself, is_bare, step};
use crate::marking::{Marks, marked};
use crate::named::Named;
use sqlite_items::Items;
use vsd_check::Checked;
use vsd_types::Closed;

// Makes the entry for the `m`-th method. Where it isn't marked, the class has nothing of its own for it.
fn step_at(
    checked: &Checked,
    closed: &Closed,
    parts: &Parts,
    named: &Named,
    t: u16,
    i: u16,
    m: usize,
    has: bool,
    marked: bool,
    column: &mut Items<Entry>,
)
    requires together { closed.now.decls ≡ decls_of checked.now }
    requires parts { AreParts closed.now (depths_of checked.now) parts.now.table.reached parts.now.table.maps parts.now.given }
    requires named { AreNamed closed.now.decls.list named.now }
    requires class { t < length closed.now.types }
    requires interface { i < length closed.now.types }
    requires having { IsHaving closed.now t i has }
    requires marked { marked ≡ false → HasNothing closed.now t i m }
    requires within { m < length column.old }
    requires few { length column.old ≤ 256 }
    ensures { IsMadeAt (IsStep closed.now t i) m column.old column.new }
{
    let above = column.as_slice()[m];
    if marked {
        let entry = step(checked, closed, parts, named, t, i, m as u16, has, above);
        column.set(m, entry);
        return;
    }
    if has {
        column.set(m, combine(None, None, has, above));
    }
}

// Makes each entry of class `t` for interface `i`. Only the marked methods are looked for.
fn step_each(
    checked: &Checked,
    closed: &Closed,
    parts: &Parts,
    named: &Named,
    buckets: &[u8],
    marks: &Marks,
    t: u16,
    i: u16,
    has: bool,
    column: &mut Items<Entry>,
)
    requires together { closed.now.decls ≡ decls_of checked.now }
    requires parts { AreParts closed.now (depths_of checked.now) parts.now.table.reached parts.now.table.maps parts.now.given }
    requires named { AreNamed closed.now.decls.list named.now }
    requires class { t < length closed.now.types }
    requires interface { i < length closed.now.types }
    requires having { IsHaving closed.now t i has }
    requires buckets { length buckets.now ≡ length column.old }
    requires marks { AreMarked closed.now t i buckets.now marks.now }
    requires few { length column.old ≤ 256 }
    ensures { AreEach (IsStep closed.now t i) (length column.old) column.old column.new }
{
    for m in 0..column.len() {
        let marked = marks[buckets[m] as usize];
        step_at(checked, closed, parts, named, t, i, m, has, marked, column);
    }
}

/// Makes of what the base of class `t` has for the methods of interface `i`, whose names fall into these buckets, what
/// the class has. A class with nothing of its own changes nothing.
pub(crate) fn change(
    checked: &Checked,
    closed: &Closed,
    parts: &Parts,
    named: &Named,
    buckets: &[u8],
    t: u16,
    i: u16,
    column: &mut Items<Entry>,
)
    requires together { closed.now.decls ≡ decls_of checked.now }
    requires parts { AreParts closed.now (depths_of checked.now) parts.now.table.reached parts.now.table.maps parts.now.given }
    requires named { AreNamed closed.now.decls.list named.now }
    requires class { t < length closed.now.types }
    requires interface { i < length closed.now.types }
    requires buckets { AreBuckets (methods_in (declaration_of closed.now.decls.list (type_at closed.now.types i))) buckets.now }
    requires above { IsColumn closed.now (base_of closed.now.decls.list (type_at closed.now.types t)) i column.old }
    ensures { IsColumn closed.now (Some (type_at closed.now.types t)) i column.new }
{
    let has = has_itself(checked, closed, parts, t, i);
    if !has && is_bare(checked, closed, parts, t) {
        return;
    }
    let _few = count_methods(checked, closed, i);
    let marks = marked(checked, closed, parts, named, buckets, t, i);
    step_each(
        checked, closed, parts, named, buckets, &marks, t, i, has, column,
    );
}
