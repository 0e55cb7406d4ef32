//! What a class has for the methods of each of its interfaces.
ghost use Rattle.std.specs.Prelude.{◌≡◌, ◌<◌, IfOk, IfSome, OnOk, [], Some, length, true, slice_index_or};
ghost use Rattle.vsd_check.specs.Checked.{decls_of, depths_of};
ghost use Rattle.std.specs.Option.{option_to_list};
ghost use Rattle.vsd_types.specs.Numbers.{AreNumbers};
ghost use Rattle.vsd_types.specs.Types.{base_of, type_at};
ghost use Rattle.vsd_slots.specs.Columns.{HasNone, IsBlank};
ghost use Rattle.vsd_slots.specs.Entries.{AreParts, IsHaving};
ghost use Rattle.vsd_slots.specs.Named.{AreNamed};
ghost use Rattle.vsd_slots.specs.Kept.{AreKept};
ghost use Rattle.vsd_slots.specs.Rows.{AreRight, IsColumnOf, IsRowOf, Keeps};

use crate::columns::column_above;
use crate::counting::count_methods;
use crate::entries::{Entry, Parts, is_bare};
use crate::kept::Kept;
use crate::made::{inherited_row, load, made_number};
use crate::marking::{has_none, names_marked};
use crate::named::Named;
use crate::ragged::Ragged;
use crate::sharing::{add_column, number_over};
use sqlite_items::Items;
use std::alloc::{AllocError, Global};
use vsd_check::Checked;
use vsd_interfaces::{Collected, own};
use vsd_types::Closed;

// The number of the column of the base of class `t` for interface `i`, which is kept from now on.
fn kept_number(
    alloc: Global,
    checked: &Checked,
    closed: &Closed,
    parts: &Parts,
    named: &Named,
    t: u16,
    base: u16,
    i: u16,
    columns: &mut Ragged,
    kept: &mut Kept,
) -> Result<usize, AllocError>
    requires together { closed.now.decls ≡ decls_of checked.now }
    requires parts { AreParts closed.now (depths_of checked.now) parts.now.table.reached parts.now.table.maps parts.now.given }
    requires named { AreNamed closed.now.decls.list named.now }
    requires kept { AreKept closed.now columns.old kept.old }
    requires class { t < length closed.now.types }
    requires within { base < length closed.now.types }
    requires base { base_of closed.now.decls.list (type_at closed.now.types t) ≡ Some (type_at closed.now.types base) }
    requires interface { i < length closed.now.types }
    ensures number { IfOk result (IsColumnOf closed.now columns.new base i) }
    ensures keeps { OnOk result (Keeps columns.old columns.new) }
    ensures kept { OnOk result (AreKept closed.now columns.new kept.new) }
{
    if let Some(number) = kept.number(base, i) {
        return Ok(number);
    }
    let above = column_above(alloc, checked, closed, parts, named, columns, kept, t, i)?;
    let number = columns.add(above.as_slice())?;
    kept.keep(base, i, number, closed.count())?;
    Ok(number)
}

// The number of the column of the base of class `t` for interface `i`.
fn number_above(
    alloc: Global,
    checked: &Checked,
    closed: &Closed,
    parts: &Parts,
    named: &Named,
    rows: &[Items<usize>],
    t: u16,
    base: u16,
    i: u16,
    interfaces: &Collected,
    columns: &mut Ragged,
    kept: &mut Kept,
) -> Result<usize, AllocError>
    requires together { closed.now.decls ≡ decls_of checked.now }
    requires parts { AreParts closed.now (depths_of checked.now) parts.now.table.reached parts.now.table.maps parts.now.given }
    requires named { AreNamed closed.now.decls.list named.now }
    requires right { AreRight closed.now parts.now.table.maps columns.old rows.now }
    requires kept { AreKept closed.now columns.old kept.old }
    requires class { t < length closed.now.types }
    requires within { base < length closed.now.types }
    requires base { base_of closed.now.decls.list (type_at closed.now.types t) ≡ Some (type_at closed.now.types base) }
    requires interface { i < length closed.now.types }
    ensures number { IfOk result (IsColumnOf closed.now columns.new base i) }
    ensures keeps { OnOk result (Keeps columns.old columns.new) }
    ensures kept { OnOk result (AreKept closed.now columns.new kept.new) }
{
    if let Some(number) = made_number(parts.table.maps.as_slice(), rows, base, i, interfaces) {
        return Ok(number);
    }
    kept_number(
        alloc, checked, closed, parts, named, t, base, i, columns, kept,
    )
}

// The number of the column of class `t` for interface `i`.
fn number(
    alloc: Global,
    checked: &Checked,
    closed: &Closed,
    parts: &Parts,
    named: &Named,
    rows: &[Items<usize>],
    blank: &[Entry],
    t: u16,
    base: Option<u16>,
    i: u16,
    has: bool,
    bare: bool,
    interfaces: &Collected,
    columns: &mut Ragged,
    kept: &mut Kept,
) -> Result<usize, AllocError>
    requires together { closed.now.decls ≡ decls_of checked.now }
    requires parts { AreParts closed.now (depths_of checked.now) parts.now.table.reached parts.now.table.maps parts.now.given }
    requires named { AreNamed closed.now.decls.list named.now }
    requires right { AreRight closed.now parts.now.table.maps columns.old rows.now }
    requires blank { IsBlank 256 blank.now }
    requires kept { AreKept closed.now columns.old kept.old }
    requires class { t < length closed.now.types }
    requires having { IsHaving closed.now t i has }
    requires bare { bare ≡ true → HasNone closed.now t i }
    requires within { IfSome base (λ b. b < length closed.now.types) }
    requires base { AreNumbers closed.now.types (option_to_list base) (option_to_list (base_of closed.now.decls.list (type_at closed.now.types t))) }
    requires interface { i < length closed.now.types }
    ensures number { IfOk result (IsColumnOf closed.now columns.new t i) }
    ensures keeps { OnOk result (Keeps columns.old columns.new) }
    ensures kept { OnOk result (AreKept closed.now columns.new kept.new) }
{
    match base {
        Some(base) => {
            let above = number_above(
                alloc, checked, closed, parts, named, rows, t, base, i, interfaces, columns, kept,
            )?;
            number_over(
                alloc, checked, closed, parts, named, t, i, has, bare, above, columns,
            )
        }
        None => {
            let above = &blank[..count_methods(checked, closed, i) as usize];
            add_column(
                checked, closed, parts, named, t, i, has, bare, above, columns,
            )
        }
    }
}

/// The row of a class, from the rows that are made.
///
/// The interfaces that a class has itself come first, so it has the k-th itself where k is below their count. `above` is used
/// for those of its base; what it has before and after is of no matter.
pub(crate) fn row(
    alloc: Global,
    checked: &Checked,
    closed: &Closed,
    parts: &Parts,
    named: &Named,
    rows: &[Items<usize>],
    blank: &[Entry],
    t: u16,
    above: &mut Collected,
    columns: &mut Ragged,
    kept: &mut Kept,
) -> Result<Items<usize>, AllocError>
    requires together { closed.now.decls ≡ decls_of checked.now }
    requires parts { AreParts closed.now (depths_of checked.now) parts.now.table.reached parts.now.table.maps parts.now.given }
    requires named { AreNamed closed.now.decls.list named.now }
    requires right { AreRight closed.now parts.now.table.maps columns.old rows.now }
    requires blank { IsBlank 256 blank.now }
    requires kept { AreKept closed.now columns.old kept.old }
    requires class { t < length closed.now.types }
    ensures row { IfOk result (IsRowOf closed.now parts.now.table.maps columns.new t) }
    ensures keeps { OnOk result (Keeps columns.old columns.new) }
    ensures kept { OnOk result (AreKept closed.now columns.new kept.new) }
{
    if let Some(inherited) = inherited_row(checked, closed, parts, rows, columns, t) {
        return Items::from_slice(alloc, inherited);
    }
    let own_count = own(closed, parts.table.reached.as_slice(), t).len();
    let map = parts.table.maps.as_slice()[t as usize].as_slice();
    let base = closed.base(t);
    let bare = is_bare(checked, closed, parts, t);
    let marks = names_marked(closed, named, t);
    let _count = closed.count();
    let mut found = Vec::with_capacity(alloc, map.len())?;
    load(parts, base, above)?;
    for k in 0..map.len() {
        let has = k < own_count;
        let none = bare || has_none(checked, closed, parts, named, &marks, t, map[k]);
        found.push(number(
            alloc, checked, closed, parts, named, rows, blank, t, base, map[k], has, none, above,
            columns, kept,
        )?)?;
    }
    Ok(Items::from_vec(found))
}
