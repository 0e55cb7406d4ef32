//! The roots of virtual methods.
ghost use Rattle.std.specs.Prelude.{◌≡◌, ◌+◌, ◌*◌, ◌<◌, length, IfOk, OnOk, IfSome, IsSome};
ghost use Rattle.vsd_layers.specs.Layers.{AreLayers};
ghost use Rattle.vsd_lift.specs.Settled.{IsSettled};
ghost use Rattle.vsd_roots.specs.Methods.{Tabulates, TabulatesRow, entry};
ghost use Rattle.vsd_roots.specs.Order.{rank, TabulatesBelow};
ghost use Rattle.vsd_roots.specs.Slots.{IsOverridden, IsRoot};

use crate::Place;
use crate::rows::{empty_rows, entry_of};
use sqlite_items::Items;
use std::alloc::{AllocError, Global};
use vsd_layers::{Layers, by_depth};
use vsd_lift::Hierarchy;

// The root of the method that is overridden, and the method itself where there is none.
fn root_above(roots: &[Items<Place>], place: Place, above: Option<Place>) -> Place
    requires { IfSome above (λ q. IsSome (entry roots.now q)) }
    ensures own { above ≡ None → result ≡ place }
    ensures same { IfSome above (λ q. entry roots.now q ≡ Some result) }
{
    match above {
        Some(at) => entry_of(roots, at),
        None => place,
    }
}

// The roots of the methods of one declaration, where those of the declarations before it are there.
fn roots_row(
    alloc: Global,
    h: &Hierarchy<'_>,
    overridden: &[Items<Option<Place>>],
    roots: &[Items<Place>],
    at: u16,
) -> Result<Items<Place>, AllocError>
    requires settled { IsSettled h.now.decls.now h.now.places.now h.now.depths.now }
    requires within { at < length h.now.decls.now }
    requires overridden { Tabulates h.now.decls.now (IsOverridden h.now.decls.now) overridden.now }
    requires filled { TabulatesBelow h.now.decls.now h.now.depths.now (rank h.now.depths.now at)
        (IsRoot h.now.decls.now) roots.now }
    ensures { IfOk result (TabulatesRow h.now.decls.now (IsRoot h.now.decls.now) at) }
{
    let count = h.decls[at as usize].methods.len();
    let mut row = Items::new(alloc);
    for method in 0..count {
        let place = Place {
            decl: at,
            method: method as u16,
        };
        let above = entry_of(overridden, place);
        row.push(root_above(roots, place, above))?;
    }
    Ok(row)
}

// The rows of the declarations of one depth.
fn roots_depth(
    alloc: Global,
    h: &Hierarchy<'_>,
    layers: &Layers,
    overridden: &[Items<Option<Place>>],
    depth: usize,
    roots: &mut Items<Items<Place>>,
) -> Result<(), AllocError>
    requires settled { IsSettled h.now.decls.now h.now.places.now h.now.depths.now }
    requires layers { AreLayers h.now.depths.now layers.now.first.items layers.now.next.items }
    requires overridden { Tabulates h.now.decls.now (IsOverridden h.now.decls.now) overridden.now }
    requires filled { TabulatesBelow h.now.decls.now h.now.depths.now (1024 * depth)
        (IsRoot h.now.decls.now) roots.old }
    ensures { OnOk result (TabulatesBelow h.now.decls.now h.now.depths.now (1024 * (depth + 1))
        (IsRoot h.now.decls.now) roots.new) }
{
    let mut next = layers.first(depth);
    while let Some(at) = next {
        let row = roots_row(alloc, h, overridden, roots.as_slice(), at)?;
        roots.set(at as usize, row);
        next = layers.after(at);
    }
    Ok(())
}

/// The root of each virtual method, in a row for each declaration: the method that started the slot that it fills, which
/// is reached from one overridden method to the next (ECMA-335, II.9.9, II.10.3.1). The error is want of memory.
pub fn roots(
    alloc: Global,
    h: &Hierarchy<'_>,
    overridden: &[Items<Option<Place>>],
) -> Result<Items<Items<Place>>, AllocError>
    requires settled { IsSettled h.now.decls.now h.now.places.now h.now.depths.now }
    requires overridden { Tabulates h.now.decls.now (IsOverridden h.now.decls.now) overridden.now }
    ensures { IfOk result (Tabulates h.now.decls.now (IsRoot h.now.decls.now)) }
{
    let mut made = empty_rows(alloc, h.decls.len())?;
    let layers = by_depth(alloc, h.depths)?;
    for depth in 0..layers.count() {
        roots_depth(alloc, h, &layers, overridden, depth, &mut made)?;
    }
    Ok(made)
}
