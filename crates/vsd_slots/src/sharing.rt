//! The number of a class's column: that of its base's, where the class makes nothing else of it.
ghost use Rattle.std.specs.Prelude.{◌≡◌, ◌<◌, None, Some, length, IfOk, OnOk, true};
ghost use Rattle.vsd_check.specs.Checked.{decls_of, depths_of};
ghost use Rattle.vsd_types.specs.Types.{base_of, type_at};
ghost use Rattle.vsd_slots.specs.Columns.{AreEach, HasNone, IsColumn};
ghost use Rattle.vsd_slots.specs.Entries.{AreParts, IsCombined, IsHaving};
ghost use Rattle.vsd_slots.specs.Named.{AreNamed};
ghost use Rattle.vsd_slots.specs.Rows.{IsColumnOf, IsNumber, Keeps};

use crate::columns::column;
use crate::entries::{Entry, Parts};
use crate::named::Named;
use crate::ragged::Ragged;
use sqlite_items::Items;
use std::alloc::{AllocError, Global};
use vsd_check::Checked;
use vsd_types::Closed;

// Whether an entry stays where a class has the interface itself, and else nothing for it: what is there by name implements
// already, or nothing is.
fn stays(entry: Entry) -> bool
    ensures { result ≡ true → IsCombined None None true entry entry }
{
    match entry.implementation {
        Some(_) => true,
        None => entry.nearest.is_none(),
    }
}

// Whether each entry stays so.
fn all_stay(column: &[Entry]) -> bool
    ensures { result ≡ true → AreEach (λ m. IsCombined None None true) (length column.now) column.now column.now }
{
    for m in 0..column.len() {
        if !stays(column[m]) {
            return false;
        }
    }
    true
}

// Whether a class has the column of its base. `has` tells whether it has the interface itself, and `bare` that it has nothing
// of its own for it.
fn is_shared(has: bool, bare: bool, above: &[Entry]) -> bool
    ensures bare { result ≡ true → bare ≡ true }
    ensures same { result ≡ true → AreEach (λ m. IsCombined None None has) (length above.now) above.now above.now }
{
    bare && (!has || all_stay(above))
}

/// Adds the column of class `t` for interface `i`, from that of its base, and gives its number. `has` tells whether the class
/// has the interface itself, and `bare` that it has nothing of its own for it.
pub(crate) fn add_column(
    checked: &Checked,
    closed: &Closed,
    parts: &Parts,
    named: &Named,
    t: u16,
    i: u16,
    has: bool,
    bare: bool,
    above: &[Entry],
    columns: &mut Ragged,
) -> Result<usize, AllocError>
    requires together { closed.now.decls ≡ decls_of checked.now }
    requires parts { AreParts closed.now (depths_of checked.now) parts.now.table.reached parts.now.table.maps parts.now.given }
    requires named { AreNamed closed.now.decls.list named.now }
    requires class { t < length closed.now.types }
    requires interface { i < length closed.now.types }
    requires having { IsHaving closed.now t i has }
    requires bare { bare ≡ true → HasNone closed.now t i }
    requires above { IsColumn closed.now (base_of closed.now.decls.list (type_at closed.now.types t)) i above.now }
    ensures number { IfOk result (IsColumnOf closed.now columns.new t i) }
    ensures keeps { OnOk result (Keeps columns.old columns.new) }
{
    let number = columns.count();
    column(
        checked, closed, parts, named, t, i, has, bare, above, columns,
    )?;
    Ok(number)
}

/// The number of the column of class `t` for interface `i`, where that of its base has this one.
pub(crate) fn number_over(
    alloc: Global,
    checked: &Checked,
    closed: &Closed,
    parts: &Parts,
    named: &Named,
    t: u16,
    i: u16,
    has: bool,
    bare: bool,
    number: usize,
    columns: &mut Ragged,
) -> Result<usize, AllocError>
    requires together { closed.now.decls ≡ decls_of checked.now }
    requires parts { AreParts closed.now (depths_of checked.now) parts.now.table.reached parts.now.table.maps parts.now.given }
    requires named { AreNamed closed.now.decls.list named.now }
    requires class { t < length closed.now.types }
    requires interface { i < length closed.now.types }
    requires having { IsHaving closed.now t i has }
    requires bare { bare ≡ true → HasNone closed.now t i }
    requires above { IsNumber (IsColumn closed.now (base_of closed.now.decls.list (type_at closed.now.types t)) i) columns.old number }
    ensures number { IfOk result (IsColumnOf closed.now columns.new t i) }
    ensures keeps { OnOk result (Keeps columns.old columns.new) }
{
    if is_shared(has, bare, columns.list(number)) {
        return Ok(number);
    }
    let above = Items::from_slice(alloc, columns.list(number))?;
    add_column(
        checked,
        closed,
        parts,
        named,
        t,
        i,
        has,
        bare,
        above.as_slice(),
        columns,
    )
}
