//! The first slot of a class without implementation.
ghost use Rattle.std.specs.Prelude.{◌≡◌, ℕ, ◌<◌, ◌≤◌, IfErr, IfOk, OnOk, false, length, slice_index_or};
ghost use Rattle.vsd_check.specs.Checked.{decls_of};
ghost use Rattle.vsd_types.specs.Types.{type_at};
ghost use Rattle.vsd_slots.specs.Missing.{AreShort, AreWhole, IsFirstMissing, IsFirstNone, IsLacking};
ghost use Rattle.vsd_slots.specs.Refusals.{IsWhole, IsWithinLimit, Passes};
ghost use Rattle.vsd_slots.specs.Rows.{IsRow};
ghost use Rattle.vsd_slots.specs.Slots.{IsRefusal};
ghost use Rattle.vsd_interfaces.specs.Tables.{IsMap};

use crate::counting::is_concrete;
use crate::entries::Entry;
use crate::error::SlotError;
use crate::ragged::Ragged;
use std::alloc::AllocError;
use vsd_check::Checked;
use vsd_types::Closed;

// The first method without implementation.
fn first_in(column: &[Entry]) -> Option<u16>
    requires { length column.now ≤ 256 }
    ensures { IsFirstNone column.now result }
{
    for m in 0..column.len() {
        match column[m].implementation {
            None => return Some(m as u16),
            Some(_) => {}
        }
    }
    None
}

/// A slot of a class: the place of the interface, and the place of its method.
#[derive(Clone, Copy, Debug, Drop)]
pub(crate) struct Slot {
    pub(crate) place: usize,
    pub(crate) method: u16,
}

// Makes room for a mark for each of so many columns, none of which is marked anew.
fn make_room(whole: &mut Vec<bool>, count: usize) -> Result<(), AllocError>
    ensures room { OnOk result (count ≤ length whole.new.items) }
    ensures same { OnOk result ((n : ℕ) → slice_index_or whole.new.items n false ≡ slice_index_or whole.old.items n false) }
{
    if count <= whole.len() {
        return Ok(());
    }
    whole.resize(count, false)
}

/// The first slot of a row without implementation, by interface and then by method. Columns that lack none are marked in
/// `whole`, so that each is looked through once.
pub(crate) fn first_missing(
    columns: &Ragged,
    row: &[usize],
    whole: &mut Vec<bool>,
) -> Result<Option<Slot>, AllocError>
    requires short { AreShort columns.now row.now }
    requires whole { AreWhole columns.now whole.old.items }
    ensures missing { IfOk result (IsFirstMissing columns.now row.now) }
    ensures whole { OnOk result (AreWhole columns.now whole.new.items) }
{
    make_room(whole, columns.count())?;
    for place in 0..row.len() {
        let number = row[place];
        if whole[number] {
            continue;
        }
        match first_in(columns.list(number)) {
            Some(method) => return Ok(Some(Slot { place, method })),
            None => whole[number] = true,
        }
    }
    Ok(None)
}

/// The first slot that a class may not lack and does. `whole` marks columns that lack none.
pub(crate) fn lacking(
    checked: &Checked,
    closed: &Closed,
    t: u16,
    columns: &Ragged,
    row: &[usize],
    whole: &mut Vec<bool>,
) -> Result<Option<Slot>, AllocError>
    requires together { closed.now.decls ≡ decls_of checked.now }
    requires class { t < length closed.now.types }
    requires short { AreShort columns.now row.now }
    requires whole { AreWhole columns.now whole.old.items }
    ensures lacking { IfOk result (IsLacking closed.now.decls.list (type_at closed.now.types t) columns.now row.now) }
    ensures whole { OnOk result (AreWhole columns.now whole.new.items) }
{
    if !is_concrete(checked, closed, t) {
        return Ok(None);
    }
    first_missing(columns, row, whole)
}

/// Sees that a class lacks nothing, by its interfaces and its row. `whole` marks columns that lack none.
pub(crate) fn see_whole(
    checked: &Checked,
    closed: &Closed,
    t: u16,
    interfaces: &[u16],
    columns: &Ragged,
    row: &[usize],
    whole: &mut Vec<bool>,
) -> Result<(), SlotError>
    requires together { closed.now.decls ≡ decls_of checked.now }
    requires class { t < length closed.now.types }
    requires map { IsMap closed.now t interfaces.now }
    requires row { IsRow closed.now columns.now t interfaces.now (length interfaces.now) row.now }
    requires whole { AreWhole columns.now whole.old.items }
    requires before { Passes closed.now t }
    requires within { IsWithinLimit closed.now t }
    ensures ok { OnOk result (IsWhole closed.now.decls.list (type_at closed.now.types t)) }
    ensures whole { OnOk result (AreWhole columns.now whole.new.items) }
    ensures refused { IfErr result (IsRefusal closed.now) }
{
    let _decls = checked.decls();
    match lacking(checked, closed, t, columns, row, whole)? {
        Some(slot) => Err(SlotError::Missing {
            class: t,
            interface: interfaces[slot.place],
            method: slot.method,
        }),
        None => Ok(()),
    }
}
