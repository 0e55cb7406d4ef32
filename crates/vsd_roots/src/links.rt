//! The methods of one name, each with the one before it, so that those above a class are found without a walk over all.
ghost use Rattle.std.specs.Prelude.{◌≡◌, ◌+◌, ◌*◌, ◌<◌, length, slice_index, IfOk, OnOk};
ghost use Rattle.std.specs.HashMap.{get};
ghost use Rattle.vsd_layers.specs.Layers.{AreLayers};
ghost use Rattle.vsd_lift.specs.Settled.{IsSettled};
ghost use Rattle.vsd_roots.specs.Methods.{Tabulates, TabulatesRow};
ghost use Rattle.vsd_roots.specs.Order.{rank, same_name, AreLatest, IsLink, IsShallower, TabulatesBelow};

use crate::Place;
use crate::rows::empty_rows;
use sqlite_items::Items;
use std::alloc::{AllocError, Global};
use std::collections::HashMap;
use vsd_layers::{Layers, by_depth};
use vsd_lift::Hierarchy;

// The links of the methods of one declaration, which become the latest of their names, the first of them last.
fn link_row<'a>(
    alloc: Global,
    h: &Hierarchy<'a>,
    at: u16,
    latest: &mut HashMap<&'a [u8], Place>,
) -> Result<Items<Option<Place>>, AllocError>
    requires settled { IsSettled h.now.decls.now h.now.places.now h.now.depths.now }
    requires within { at < length h.now.decls.now }
    requires before { AreLatest h.now.decls.now h.now.depths.now
        (rank h.now.depths.now at * 256) (get same_name latest.old) }
    ensures after { OnOk result (AreLatest h.now.decls.now h.now.depths.now
        ((rank h.now.depths.now at + 1) * 256) (get same_name latest.new)) }
    ensures row { IfOk result (TabulatesRow h.now.decls.now
        (IsLink h.now.decls.now h.now.depths.now) at) }
{
    let methods = h.decls[at as usize].methods.as_slice();
    let mut row = Items::from_vec(vec![in alloc; None; methods.len()]?);
    for method in (0..methods.len()).rev() {
        let place = Place {
            decl: at,
            method: method as u16,
        };
        let before = latest.insert(methods[method].name.as_slice(), place)?;
        row.set(method, before);
    }
    Ok(row)
}

// The rows of the declarations of one depth.
fn link_depth<'a>(
    alloc: Global,
    h: &Hierarchy<'a>,
    layers: &Layers,
    depth: usize,
    latest: &mut HashMap<&'a [u8], Place>,
    rows: &mut Items<Items<Option<Place>>>,
) -> Result<(), AllocError>
    requires settled { IsSettled h.now.decls.now h.now.places.now h.now.depths.now }
    requires layers { AreLayers h.now.depths.now layers.now.first.items layers.now.next.items }
    requires before { AreLatest h.now.decls.now h.now.depths.now
        (1024 * depth * 256) (get same_name latest.old) }
    requires filled { TabulatesBelow h.now.decls.now h.now.depths.now (1024 * depth)
        (IsLink h.now.decls.now h.now.depths.now) rows.old }
    ensures after { OnOk result (AreLatest h.now.decls.now h.now.depths.now
        (1024 * (depth + 1) * 256) (get same_name latest.new)) }
    ensures fills { OnOk result (TabulatesBelow h.now.decls.now h.now.depths.now
        (1024 * (depth + 1)) (IsLink h.now.decls.now h.now.depths.now) rows.new) }
{
    let mut next = layers.first(depth);
    while let Some(at) = next {
        let row = link_row(alloc, h, at, latest)?;
        rows.set(at as usize, row);
        next = layers.after(at);
    }
    Ok(())
}

// The latest method of a name.
fn latest_of<'a>(latest: &HashMap<&'a [u8], Place>, name: &'a [u8]) -> Option<Place>
    ensures { result ≡ get same_name latest.now name.entry }
{
    latest.get(&name).copied()
}

// For each method of one declaration the latest of its name, where those of the less deep declarations are in.
fn shallower_row<'a>(
    alloc: Global,
    h: &Hierarchy<'a>,
    at: usize,
    latest: &HashMap<&'a [u8], Place>,
) -> Result<Items<Option<Place>>, AllocError>
    requires settled { IsSettled h.now.decls.now h.now.places.now h.now.depths.now }
    requires within { at < length h.now.decls.now }
    requires latest { AreLatest h.now.decls.now h.now.depths.now
        (1024 * slice_index h.now.depths.now at * 256) (get same_name latest.now) }
    ensures { IfOk result (TabulatesRow h.now.decls.now
        (IsShallower h.now.decls.now h.now.depths.now) at) }
{
    let methods = h.decls[at].methods.as_slice();
    let mut row = Items::new(alloc);
    for method in 0..methods.len() {
        let found = latest_of(latest, methods[method].name.as_slice());
        row.push(found)?;
    }
    Ok(row)
}

// The same of the declarations of one depth.
fn shallower_depth<'a>(
    alloc: Global,
    h: &Hierarchy<'a>,
    layers: &Layers,
    depth: usize,
    latest: &HashMap<&'a [u8], Place>,
    rows: &mut Items<Items<Option<Place>>>,
) -> Result<(), AllocError>
    requires settled { IsSettled h.now.decls.now h.now.places.now h.now.depths.now }
    requires layers { AreLayers h.now.depths.now layers.now.first.items layers.now.next.items }
    requires latest { AreLatest h.now.decls.now h.now.depths.now
        (1024 * depth * 256) (get same_name latest.now) }
    requires filled { TabulatesBelow h.now.decls.now h.now.depths.now (1024 * depth)
        (IsShallower h.now.decls.now h.now.depths.now) rows.old }
    ensures { OnOk result (TabulatesBelow h.now.decls.now h.now.depths.now
        (1024 * (depth + 1)) (IsShallower h.now.decls.now h.now.depths.now) rows.new) }
{
    let mut next = layers.first(depth);
    while let Some(at) = next {
        let row = shallower_row(alloc, h, at as usize, latest)?;
        rows.set(at as usize, row);
        next = layers.after(at);
    }
    Ok(())
}

/// For each method two of its name that come before it in the order of depths.
#[derive(Drop)]
pub(crate) struct LinkTables {
    /// The last one.
    pub before: Items<Items<Option<Place>>>,
    /// The last one of those that declarations declare which are less deep.
    pub shallower: Items<Items<Option<Place>>>,
}

/// The links of all methods.
pub(crate) fn links(alloc: Global, h: &Hierarchy<'_>) -> Result<LinkTables, AllocError>
    requires { IsSettled h.now.decls.now h.now.places.now h.now.depths.now }
    ensures before { IfOk result (λ made.
        Tabulates h.now.decls.now (IsLink h.now.decls.now h.now.depths.now) made.before) }
    ensures shallower { IfOk result (λ made.
        Tabulates h.now.decls.now (IsShallower h.now.decls.now h.now.depths.now) made.shallower) }
{
    let mut latest = HashMap::new(alloc);
    let mut before = empty_rows(alloc, h.decls.len())?;
    let mut shallower = empty_rows(alloc, h.decls.len())?;
    let layers = by_depth(alloc, h.depths)?;
    for depth in 0..layers.count() {
        shallower_depth(alloc, h, &layers, depth, &latest, &mut shallower)?;
        link_depth(alloc, h, &layers, depth, &mut latest, &mut before)?;
    }
    Ok(LinkTables { before, shallower })
}
