//! The rows that are made, for the rows of classes below.
ghost use Rattle.std.specs.Prelude.{◌≡◌, ◌<◌, [], IfSome, length, slice_index_or};
ghost use Rattle.vsd_check.specs.Checked.{decls_of, depths_of};
ghost use Rattle.vsd_slots.specs.Entries.{AreParts};
ghost use Rattle.vsd_slots.specs.Rows.{AreRight, IsFull, IsMade, IsRowOf};

use crate::entries::{Parts, is_bare};
use crate::ragged::Ragged;
use sqlite_items::Items;
use std::alloc::AllocError;
use vsd_check::Checked;
use vsd_interfaces::{Collected, own};
use vsd_types::Closed;

/// Leaves in `above` the interfaces of the base of a class and of the classes above it.
pub(crate) fn load(
    parts: &Parts,
    base: Option<u16>,
    above: &mut Collected,
) -> Result<(), AllocError>
    requires { IfSome base (λ b. b < length parts.now.table.maps) }
{
    above.clear();
    match base {
        Some(base) => above.add_all(parts.table.maps.as_slice()[base as usize].as_slice()),
        None => Ok(()),
    }
}

// The row of a type, where it is made.
fn made_row<'a>(maps: &[Items<u16>], rows: &'a [Items<usize>], t: u16) -> Option<&'a [usize]>
    requires maps { t < length maps.now }
    requires rows { length rows.now ≡ length maps.now }
    ensures { IfSome result (λ row. IsFull maps.now t rows.now × (row.now ≡ slice_index_or rows.now t [])) }
{
    let row = rows[t as usize].as_slice();
    if row.len() != maps[t as usize].len() {
        return None;
    }
    Some(row)
}

/// The number of the column of a type for an interface, where its row is made and has it. `interfaces` tells where those of
/// the type may stand.
pub(crate) fn made_number(
    maps: &[Items<u16>],
    rows: &[Items<usize>],
    t: u16,
    i: u16,
    interfaces: &Collected,
) -> Option<usize>
    requires maps { t < length maps.now }
    requires rows { length rows.now ≡ length maps.now }
    ensures { IfSome result (IsMade maps.now rows.now t i) }
{
    let row = made_row(maps, rows, t)?;
    let map = maps[t as usize].as_slice();
    let place = interfaces.place(i)?;
    if place < map.len() && i == map[place] {
        return Some(row[place]);
    }
    None
}

/// The row of the base of class `t`, where it is made and the class has neither methods, overrides nor interfaces of its own.
/// Then it is the row of the class too. `columns` are those that rows name.
pub(crate) fn inherited_row<'a>(
    checked: &Checked,
    closed: &Closed,
    parts: &Parts,
    rows: &'a [Items<usize>],
    columns: &Ragged,
    t: u16,
) -> Option<&'a [usize]>
    requires together { closed.now.decls ≡ decls_of checked.now }
    requires parts { AreParts closed.now (depths_of checked.now) parts.now.table.reached parts.now.table.maps parts.now.given }
    requires right { AreRight closed.now parts.now.table.maps columns.now rows.now }
    requires class { t < length closed.now.types }
    ensures { IfSome result (λ row. IsRowOf closed.now parts.now.table.maps columns.now t row.now) }
{
    if !own(closed, parts.table.reached.as_slice(), t).is_empty() {
        return None;
    }
    if !is_bare(checked, closed, parts, t) {
        return None;
    }
    let _columns = columns;
    let _count = closed.count();
    let base = closed.base(t)?;
    let row = made_row(parts.table.maps.as_slice(), rows, base)?;
    Some(row)
}
