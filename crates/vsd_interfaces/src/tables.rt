//! The rows of all types: the interfaces that each reaches by what it names, and those of a class and of all above it.
ghost use Rattle.std.specs.Prelude.{◌≡◌, ◌+◌, ◌<◌, ◌≤◌, [], length, slice_index_or, IfOk, OnOk};
ghost use Rattle.vsd_ast.specs.Hierarchy.{IsHierarchy};
ghost use Rattle.vsd_check.specs.Checked.{decls_of, depths_of};
ghost use Rattle.vsd_layers.specs.Layers.{AreLayers};
ghost use Rattle.vsd_types.specs.Numbers.{IsDistinct};
ghost use Rattle.vsd_interfaces.specs.Ranks.{AreRanks};
ghost use Rattle.vsd_interfaces.specs.Tables.{AreOwn, AreRows, AreRowsTo, IsFilled, IsMapFrom, IsReachedFrom};

use crate::collected::Collected;
use crate::ranks::ranks;
use sqlite_items::Items;
use std::alloc::{AllocError, Global};
use vsd_check::Checked;
use vsd_layers::{Layers, by_depth};
use vsd_types::Closed;

// The interfaces that a type reaches, from the rows of those that it names. They are left in `set` too.
fn reached_row(
    alloc: Global,
    closed: &Closed,
    rows: &[Items<u16>],
    t: u16,
    set: &mut Collected,
) -> Result<Items<u16>, AllocError>
    requires count { length rows.now ≡ length closed.now.types }
    requires within { t < length closed.now.types }
    ensures row { IfOk result (IsReachedFrom closed.now rows.now t) }
    ensures left { IfOk result (λ row. set.new ≡ row) }
{
    set.clear();
    let named = closed.named(t);
    for interface in named {
        set.add(*interface)?;
        set.add_all(rows[*interface as usize].as_slice())?;
    }
    Items::from_slice(alloc, set.as_slice())
}

/// The interfaces of a class itself, of those that it reaches. No other type has any.
pub fn own<'a>(closed: &Closed, reached: &'a [Items<u16>], t: u16) -> &'a [u16]
    requires count { length reached.now ≡ length closed.now.types }
    requires within { t < length closed.now.types }
    ensures { AreOwn closed.now (slice_index_or reached.now t []) t result.now }
{
    if closed.is_interface(t) {
        return &[];
    }
    reached[t as usize].as_slice()
}

// Leaves those that a class has itself, of those that it reaches. No other type has any.
fn leave_own(closed: &Closed, t: u16, set: &mut Collected)
    requires { t < length closed.now.types }
    ensures { AreOwn closed.now set.old t set.new }
{
    if closed.is_interface(t) {
        set.clear();
    }
}

// The interfaces of a class and of those above it, from its own, which are those of `set`, and the row of its base.
fn map_row(
    alloc: Global,
    closed: &Closed,
    rows: &[Items<u16>],
    t: u16,
    set: &mut Collected,
) -> Result<Items<u16>, AllocError>
    requires count { length rows.now ≡ length closed.now.types }
    requires within { t < length closed.now.types }
    ensures { IfOk result (IsMapFrom closed.now set.old rows.now t) }
{
    let _own = set.as_slice();
    if let Some(base) = closed.base(t) {
        set.add_all(rows[base as usize].as_slice())?;
    }
    Items::from_slice(alloc, set.as_slice())
}

/// The interfaces of the types of a closed list, by their numbers.
#[derive(Drop)]
pub struct Table {
    /// For each type those that it reaches by what it names.
    pub reached: Items<Items<u16>>,
    /// For each type those of it and of the classes above it, nearest class first.
    pub maps: Items<Items<u16>>,
}

// So many rows without numbers.
fn empty_rows(alloc: Global, count: u16) -> Result<Items<Items<u16>>, AllocError>
    ensures { IfOk result (λ rows. length rows ≡ count) }
{
    let mut rows = Items::new(alloc);
    for _ in 0..count {
        rows.push(Items::new(alloc))?;
    }
    Ok(rows)
}

// Fills the rows of one type. What `set` has before and after is of no matter.
fn fill(
    alloc: Global,
    closed: &Closed,
    t: u16,
    table: &mut Table,
    set: &mut Collected,
) -> Result<(), AllocError>
    requires within { t < length closed.now.types }
    requires reached_count { length table.old.reached ≡ length closed.now.types }
    requires maps_count { length table.old.maps ≡ length closed.now.types }
    ensures { OnOk result (IsFilled closed.now t table.old.reached table.old.maps table.new.reached table.new.maps) }
{
    let row = reached_row(alloc, closed, table.reached.as_slice(), t, set)?;
    table.reached.set(t as usize, row);
    leave_own(closed, t, set);
    let row = map_row(alloc, closed, table.maps.as_slice(), t, set)?;
    table.maps.set(t as usize, row);
    Ok(())
}

// Fills the rows of the types of one rank.
fn fill_rank(
    alloc: Global,
    checked: &Checked,
    closed: &Closed,
    ranks: &[u16],
    layers: &Layers,
    rank: usize,
    table: &mut Table,
    set: &mut Collected,
) -> Result<(), AllocError>
    requires hierarchy { IsHierarchy closed.now.decls.list (depths_of checked.now) }
    requires ranks { AreRanks closed.now.decls.list (depths_of checked.now) closed.now.types ranks.now }
    requires distinct { IsDistinct closed.now.types }
    requires few { length closed.now.types ≤ 1024 }
    requires layers { AreLayers ranks.now layers.now.first.items layers.now.next.items }
    requires before { AreRowsTo closed.now (depths_of checked.now) ranks.now rank 0 table.old.reached table.old.maps }
    ensures { OnOk result (AreRowsTo closed.now (depths_of checked.now) ranks.now (rank + 1) 0 table.new.reached table.new.maps) }
{
    let mut next = layers.first(rank);
    while let Some(t) = next {
        fill(alloc, closed, t, table, set)?;
        next = layers.after(t);
    }
    Ok(())
}

// Fills the rows of the types of every rank. The types of each are listed first, so that each type is looked at once.
fn fill_all(
    alloc: Global,
    checked: &Checked,
    closed: &Closed,
    ranks: &[u16],
    table: &mut Table,
    set: &mut Collected,
) -> Result<(), AllocError>
    requires hierarchy { IsHierarchy closed.now.decls.list (depths_of checked.now) }
    requires ranks { AreRanks closed.now.decls.list (depths_of checked.now) closed.now.types ranks.now }
    requires distinct { IsDistinct closed.now.types }
    requires few { length closed.now.types ≤ 1024 }
    requires reached_count { length table.old.reached ≡ length closed.now.types }
    requires maps_count { length table.old.maps ≡ length closed.now.types }
    ensures { OnOk result (AreRows closed.now (depths_of checked.now) table.new.reached table.new.maps) }
{
    let layers = by_depth(alloc, ranks)?;
    for rank in 0..layers.count() {
        fill_rank(alloc, checked, closed, ranks, &layers, rank, table, set)?;
    }
    Ok(())
}

/// The interfaces of every type. The error is want of memory.
pub fn tabulate(alloc: Global, checked: &Checked, closed: &Closed) -> Result<Table, AllocError>
    requires together { closed.now.decls ≡ decls_of checked.now }
    ensures { IfOk result (λ table. AreRows closed.now (depths_of checked.now) table.reached table.maps) }
{
    let _decls = checked.decls();
    let found = ranks(alloc, checked, closed)?;
    let mut set = Collected::new(alloc);
    let mut table = Table {
        reached: empty_rows(alloc, closed.count())?,
        maps: empty_rows(alloc, closed.count())?,
    };
    fill_all(alloc, checked, closed, &found, &mut table, &mut set)?;
    Ok(table)
}
