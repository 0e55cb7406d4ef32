//! For each method the last one of its name among those of the declarations before its own.
ghost use Rattle.std.specs.Prelude.{◌≡◌, ◌<◌, length, slice_get, IfOk, IfSome, Some};
ghost use Rattle.vsd_lift.specs.Settled.{IsSettled};
ghost use Rattle.vsd_roots.specs.Methods.{Tabulates, TabulatesRow};
ghost use Rattle.vsd_roots.specs.Order.{IsEarlier, IsLink};
ghost use Rattle.vsd_roots.specs.declared.place.Place.{Place};

use crate::Place;
use crate::rows::entry_of;
use sqlite_items::Items;
use std::alloc::{AllocError, Global};
use vsd_lift::Hierarchy;

// What comes before the declaration, by the method that comes before one of its own.
fn before_all(before: Option<Place>, at: u16, row: &[Option<Place>]) -> Option<Place>
    requires { IfSome before (λ (q : Place). q.decl ≡ at → q.method < length row.now) }
    ensures own { (q : Place) → before ≡ Some q → q.decl ≡ at → slice_get row.now q.method ≡ Some result }
    ensures other { ((q : Place) → before ≡ Some q → q.decl ≡ at → ⊥) → result ≡ before }
{
    let Some(place) = before else {
        return None;
    };
    if place.decl != at {
        return before;
    }
    row[place.method as usize]
}

// The row of one declaration, from its last method to its first.
fn earlier_row(
    alloc: Global,
    h: &Hierarchy<'_>,
    links: &[Items<Option<Place>>],
    at: u16,
) -> Result<Items<Option<Place>>, AllocError>
    requires settled { IsSettled h.now.decls.now h.now.places.now h.now.depths.now }
    requires within { at < length h.now.decls.now }
    requires links { Tabulates h.now.decls.now (IsLink h.now.decls.now h.now.depths.now) links.now }
    ensures { IfOk result (TabulatesRow h.now.decls.now (IsEarlier h.now.decls.now h.now.depths.now) at) }
{
    let count = h.decls[at as usize].methods.len();
    let mut row = Items::from_vec(vec![in alloc; None; count]?);
    for method in (0..count).rev() {
        let place = Place {
            decl: at,
            method: method as u16,
        };
        let before = entry_of(links, place);
        let found = before_all(before, at, row.as_slice());
        row.set(method, found);
    }
    Ok(row)
}

/// For each method the last one of its name among those of the declarations before its own. `links` has the last one
/// before it.
pub(crate) fn earlier(
    alloc: Global,
    h: &Hierarchy<'_>,
    links: &[Items<Option<Place>>],
) -> Result<Items<Items<Option<Place>>>, AllocError>
    requires settled { IsSettled h.now.decls.now h.now.places.now h.now.depths.now }
    requires links { Tabulates h.now.decls.now (IsLink h.now.decls.now h.now.depths.now) links.now }
    ensures { IfOk result (Tabulates h.now.decls.now (IsEarlier h.now.decls.now h.now.depths.now)) }
{
    let mut rows = Items::new(alloc);
    for at in 0..h.decls.len() {
        let row = earlier_row(alloc, h, links, at as u16)?;
        rows.push(row)?;
    }
    Ok(rows)
}
