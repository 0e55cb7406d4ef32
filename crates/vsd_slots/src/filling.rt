//! The rows of all classes, each after that of its base.
ghost use Rattle.std.specs.Prelude.{◌≡◌, ℕ, ◌<◌, ◌≤◌, length, IfErr, IfOk, IfSome, OnOk, Some};
ghost use Rattle.vsd_check.specs.Checked.{decls_of, depths_of};
ghost use Rattle.vsd_types.specs.Types.{base_of, type_at};
ghost use Rattle.vsd_slots.specs.Columns.{IsBlank};
ghost use Rattle.vsd_slots.specs.Entries.{AreParts};
ghost use Rattle.vsd_slots.specs.Named.{AreNamed};
ghost use Rattle.vsd_slots.specs.Kept.{AreKept};
ghost use Rattle.vsd_slots.specs.Refusals.{IsWithinLimit, Passes};
ghost use Rattle.vsd_slots.specs.Missing.{AreWhole};
ghost use Rattle.vsd_slots.specs.Rows.{AreRight, Fills, Keeps};
ghost use Rattle.vsd_slots.specs.Slots.{AreMade, IsClassDone, IsRefusal};

use crate::counting::is_concrete;
use crate::entries::{Entry, NOTHING, Parts};
use crate::error::SlotError;
use crate::kept::Kept;
use crate::making::row;
use crate::missing::see_whole;
use crate::named::{Named, name_methods};
use crate::rows::{Rows, no_rows};
use std::alloc::{AllocError, Global};
use vsd_check::Checked;
use vsd_interfaces::Collected;
use vsd_types::Closed;

// The base of a type, where its number is below this one.
fn base_below(closed: &Closed, t: u16, end: u16) -> Option<u16>
    requires { t < length closed.now.types }
    ensures base { IfSome result (λ b. base_of closed.now.decls.list (type_at closed.now.types t) ≡ Some (type_at closed.now.types b)) }
    ensures within { IfSome result (λ b. b < length closed.now.types) }
{
    let base = closed.base(t)?;
    if base < end {
        return Some(base);
    }
    None
}

// Makes the row of a type from those that are made.
fn make(
    alloc: Global,
    checked: &Checked,
    closed: &Closed,
    parts: &Parts,
    named: &Named,
    blank: &[Entry],
    t: u16,
    rows: &mut Rows,
    above: &mut Collected,
    kept: &mut Kept,
) -> Result<(), AllocError>
    requires together { closed.now.decls ≡ decls_of checked.now }
    requires parts { AreParts closed.now (depths_of checked.now) parts.now.table.reached parts.now.table.maps parts.now.given }
    requires named { AreNamed closed.now.decls.list named.now }
    requires right { AreRight closed.now parts.now.table.maps rows.old.columns rows.old.numbers }
    requires blank { IsBlank 256 blank.now }
    requires kept { AreKept closed.now rows.old.columns kept.old }
    requires class { t < length closed.now.types }
    ensures fills { OnOk result (Fills closed.now parts.now.table.maps rows.new.columns t rows.old.numbers rows.new.numbers) }
    ensures keeps { OnOk result (Keeps rows.old.columns rows.new.columns) }
    ensures kept { OnOk result (AreKept closed.now rows.new.columns kept.new) }
{
    let made = row(
        alloc,
        checked,
        closed,
        parts,
        named,
        rows.numbers.as_slice(),
        blank,
        t,
        above,
        &mut rows.columns,
        kept,
    )?;
    rows.numbers.set(t as usize, made);
    Ok(())
}

// Makes the row of a type where it isn't, after that of its base where the base is one of the first types.
fn fill(
    alloc: Global,
    checked: &Checked,
    closed: &Closed,
    parts: &Parts,
    named: &Named,
    blank: &[Entry],
    end: u16,
    t: u16,
    rows: &mut Rows,
    above: &mut Collected,
    kept: &mut Kept,
) -> Result<(), AllocError>
    requires together { closed.now.decls ≡ decls_of checked.now }
    requires parts { AreParts closed.now (depths_of checked.now) parts.now.table.reached parts.now.table.maps parts.now.given }
    requires named { AreNamed closed.now.decls.list named.now }
    requires right { AreRight closed.now parts.now.table.maps rows.old.columns rows.old.numbers }
    requires blank { IsBlank 256 blank.now }
    requires kept { AreKept closed.now rows.old.columns kept.old }
    requires class { t < length closed.now.types }
    ensures fills { OnOk result (Fills closed.now parts.now.table.maps rows.new.columns t rows.old.numbers rows.new.numbers) }
    ensures keeps { OnOk result (Keeps rows.old.columns rows.new.columns) }
    ensures kept { OnOk result (AreKept closed.now rows.new.columns kept.new) }
{
    if rows.numbers.as_slice()[t as usize].len() == parts.table.maps.as_slice()[t as usize].len() {
        return Ok(());
    }
    match base_below(closed, t, end) {
        Some(base) => {
            fill(
                alloc, checked, closed, parts, named, blank, end, base, rows, above, kept,
            )?;
            make(
                alloc, checked, closed, parts, named, blank, t, rows, above, kept,
            )
        }
        None => make(
            alloc, checked, closed, parts, named, blank, t, rows, above, kept,
        ),
    }
}

// Sees that a class lacks nothing. Where there are too many slots, the row of a class that may lack some isn't made.
fn fill_class(
    alloc: Global,
    checked: &Checked,
    closed: &Closed,
    parts: &Parts,
    named: &Named,
    blank: &[Entry],
    end: u16,
    t: u16,
    rows: &mut Rows,
    above: &mut Collected,
    kept: &mut Kept,
    whole: &mut Vec<bool>,
) -> Result<(), SlotError>
    requires together { closed.now.decls ≡ decls_of checked.now }
    requires parts { AreParts closed.now (depths_of checked.now) parts.now.table.reached parts.now.table.maps parts.now.given }
    requires named { AreNamed closed.now.decls.list named.now }
    requires right { AreRight closed.now parts.now.table.maps rows.old.columns rows.old.numbers }
    requires blank { IsBlank 256 blank.now }
    requires kept { AreKept closed.now rows.old.columns kept.old }
    requires whole { AreWhole rows.old.columns whole.old.items }
    requires class { t < length closed.now.types }
    requires before { Passes closed.now t }
    requires within { IsWithinLimit closed.now t }
    ensures ok { OnOk result (IsClassDone closed.now parts.now.table.maps end t rows.old rows.new) }
    ensures kept { OnOk result (AreKept closed.now rows.new.columns kept.new) }
    ensures whole { OnOk result (AreWhole rows.new.columns whole.new.items) }
    ensures refused { IfErr result (IsRefusal closed.now) }
{
    if end < closed.count() && !is_concrete(checked, closed, t) {
        return Ok(());
    }
    fill(
        alloc, checked, closed, parts, named, blank, end, t, rows, above, kept,
    )?;
    let row = rows.numbers.as_slice()[t as usize].as_slice();
    let map = parts.table.maps.as_slice()[t as usize].as_slice();
    see_whole(checked, closed, t, map, &rows.columns, row, whole)?;
    Ok(())
}

/// The rows of the types before `end`, or the first of them that lacks a slot: where `end` is their count, of all.
pub(crate) fn fill_all(
    alloc: Global,
    checked: &Checked,
    closed: &Closed,
    parts: &Parts,
    end: u16,
) -> Result<Rows, SlotError>
    requires together { closed.now.decls ≡ decls_of checked.now }
    requires parts { AreParts closed.now (depths_of checked.now) parts.now.table.reached parts.now.table.maps parts.now.given }
    requires listed { end ≤ length closed.now.types }
    requires within { (t : ℕ) → t < end → IsWithinLimit closed.now t }
    ensures made { IfOk result (AreMade closed.now parts.now.table.maps end end) }
    ensures passes { IfOk result (λ rows. Passes closed.now end) }
    ensures refused { IfErr result (IsRefusal closed.now) }
{
    let named = name_methods(alloc, checked)?;
    let mut rows = no_rows(alloc, closed.count())?;
    let mut above = Collected::new(alloc);
    let mut kept = Kept::new(alloc);
    let mut whole = Vec::new(alloc);
    let blank = [NOTHING; 256];
    for t in 0..end {
        fill_class(
            alloc, checked, closed, parts, &named, &blank, end, t, &mut rows, &mut above,
            &mut kept, &mut whole,
        )?;
    }
    Ok(rows)
}
