//! Classes that aren't abstract and leave a slot with an abstract body.
ghost use Rattle.std.specs.Prelude.{◌≡◌, ℕ, ◌+◌, ◌*◌, ◌<◌, ◌≤◌, ◌⊎◌, ◌↔◌, true, false, length, slice_get, slice_index_or, IfOk, OnOk, IsTrue, Some, if◌then◌else◌};
ghost use Rattle.std.specs.HashSet.{contains};
ghost use Rattle.vsd_ast.specs.declared.declarations.Method.{Method};
ghost use Rattle.vsd_layers.specs.Layers.{AreLayers};
ghost use Rattle.vsd_least.specs.Least.{IsLeast};
ghost use Rattle.vsd_lift.specs.Chain.{IsChain};
ghost use Rattle.vsd_lift.specs.Settled.{IsSettled};
ghost use Rattle.vsd_roots.specs.Bodies.{AbstractBelow, BaseHasAbstract, HasAbstract, Marks, MarksBelow, ScansTo, ShowsAbstract, place_eq};
ghost use Rattle.vsd_roots.specs.Levels.{IsUpward};
ghost use Rattle.vsd_roots.specs.Methods.{Tabulates};
ghost use Rattle.vsd_roots.specs.Order.{rank};
ghost use Rattle.vsd_roots.specs.Slots.{IsRoot};

use crate::Place;
use crate::rows::entry_of;
use sqlite_items::Items;
use std::alloc::{AllocError, Global};
use std::collections::HashSet;
use vsd_ast::Decl;
use vsd_layers::{Layers, by_depth};
use vsd_least::shown;
use vsd_lift::{Hierarchy, chain, extended};

// Whether an abstract body was found before, or the method is one: it is abstract, and its root is new.
fn is_found(before: bool, new: bool, is_abstract: bool) -> bool
    ensures { IsTrue result ↔ (IsTrue before ⊎ (IsTrue new × IsTrue is_abstract)) }
{
    before || (new && is_abstract)
}

// Adds the roots of the methods of the class at a level, and whether a body among them is abstract.
fn scan_class(
    h: &Hierarchy<'_>,
    chain: &[usize],
    roots: &[Items<Place>],
    level: usize,
    seen: &mut HashSet<Place>,
    before: bool,
) -> Result<bool, AllocError>
    requires settled { IsSettled h.now.decls.now h.now.places.now h.now.depths.now }
    requires upward { IsUpward h.now.decls.now chain.now }
    requires roots { Tabulates h.now.decls.now (IsRoot h.now.decls.now) roots.now }
    requires within { level < length chain.now }
    requires scanned { ScansTo h.now.decls.now chain.now (level * 256) (contains place_eq seen.old) before }
    ensures { IfOk result (ScansTo h.now.decls.now chain.now ((level + 1) * 256)
        (contains place_eq seen.new)) }
{
    let decl = chain[level];
    let methods = h.decls[decl].methods.as_slice();
    let mut found = before;
    for method in (0..methods.len()).rev() {
        let place = Place {
            decl: decl as u16,
            method: method as u16,
        };
        let root = entry_of(roots, place);
        let new = seen.insert(root)?;
        found = is_found(found, new, methods[method].is_abstract);
    }
    Ok(found)
}

// Whether one of the classes below this level holds an abstract body.
fn has_abstract_below(
    alloc: Global,
    h: &Hierarchy<'_>,
    chain: &[usize],
    roots: &[Items<Place>],
    limit: usize,
) -> Result<bool, AllocError>
    requires settled { IsSettled h.now.decls.now h.now.places.now h.now.depths.now }
    requires upward { IsUpward h.now.decls.now chain.now }
    requires roots { Tabulates h.now.decls.now (IsRoot h.now.decls.now) roots.now }
    requires within { limit ≤ length chain.now }
    ensures { IfOk result (λ found. IsTrue found ↔ AbstractBelow h.now.decls.now chain.now (limit * 256)) }
{
    let mut seen = HashSet::new(alloc);
    let mut found = false;
    for level in 0..limit {
        found = scan_class(h, chain, roots, level, &mut seen, found)?;
    }
    Ok(found)
}

fn declares_abstract(decl: &Decl) -> bool
    ensures { IsTrue result ↔ (i : ℕ) × ((m : Method) × ((slice_get decl.now.methods i ≡ Some m) × (m.is_abstract ≡ true))) }
{
    for method in decl.methods.as_slice() {
        if method.is_abstract {
            return true;
        }
    }
    false
}

// The base's mark; false without a declared base.
fn is_base_marked(h: &Hierarchy<'_>, marks: &[bool], at: usize) -> bool
    requires settled { IsSettled h.now.decls.now h.now.places.now h.now.depths.now }
    requires within { at < length h.now.decls.now }
    requires marked { MarksBelow h.now.decls.now h.now.depths.now (rank h.now.depths.now at) marks.now }
    ensures { IsTrue result ↔ BaseHasAbstract h.now.decls.now at }
{
    match extended(h, at) {
        Some(base) => marks[base as usize],
        None => false,
    }
}

// The levels that can hold an abstract body: all, or the lowest where the base has none.
fn levels_to_scan(base: bool, count: usize) -> usize
    ensures { result ≡ (if base then count else 1) }
{
    if base { count } else { 1 }
}

// Whether a slot of the declaration has an abstract body.
fn has_abstract(
    alloc: Global,
    h: &Hierarchy<'_>,
    roots: &[Items<Place>],
    marks: &[bool],
    at: usize,
) -> Result<bool, AllocError>
    requires settled { IsSettled h.now.decls.now h.now.places.now h.now.depths.now }
    requires within { at < length h.now.decls.now }
    requires roots { Tabulates h.now.decls.now (IsRoot h.now.decls.now) roots.now }
    requires marked { MarksBelow h.now.decls.now h.now.depths.now (rank h.now.depths.now at) marks.now }
    ensures { IfOk result (λ found. IsTrue found ↔ HasAbstract h.now.decls.now at) }
{
    let base = is_base_marked(h, marks, at);
    if !base && !declares_abstract(&h.decls[at]) {
        return Ok(false);
    }
    let upward = chain(alloc, h, at)?;
    let limit = levels_to_scan(base, upward.len());
    has_abstract_below(alloc, h, upward.as_slice(), roots, limit)
}

// Marks the declarations of one depth.
fn mark_depth(
    alloc: Global,
    h: &Hierarchy<'_>,
    layers: &Layers,
    roots: &[Items<Place>],
    depth: usize,
    marks: &mut Vec<bool>,
) -> Result<(), AllocError>
    requires settled { IsSettled h.now.decls.now h.now.places.now h.now.depths.now }
    requires layers { AreLayers h.now.depths.now layers.now.first.items layers.now.next.items }
    requires roots { Tabulates h.now.decls.now (IsRoot h.now.decls.now) roots.now }
    requires marked { MarksBelow h.now.decls.now h.now.depths.now (1024 * depth) marks.old.items }
    ensures { OnOk result (MarksBelow h.now.decls.now h.now.depths.now (1024 * (depth + 1)) marks.new.items) }
{
    let mut next = layers.first(depth);
    while let Some(at) = next {
        let place = at as usize;
        marks[place] = has_abstract(alloc, h, roots, marks.as_slice(), place)?;
        next = layers.after(at);
    }
    Ok(())
}

/// For each declaration whether one of its slots, its own or inherited, has an abstract body (ECMA-335, II.15.4.2.4).
///
/// A slot's body in a class is the method with the slot's root in the nearest class from that one upward, the later one
/// of two in one class. The error is want of memory.
pub fn abstract_bodies(
    alloc: Global,
    h: &Hierarchy<'_>,
    roots: &[Items<Place>],
) -> Result<Vec<bool>, AllocError>
    requires settled { IsSettled h.now.decls.now h.now.places.now h.now.depths.now }
    requires roots { Tabulates h.now.decls.now (IsRoot h.now.decls.now) roots.now }
    ensures { IfOk result (λ marks. Marks h.now.decls.now marks.items) }
{
    let mut marks = vec![in alloc; false; h.decls.len()]?;
    let layers = by_depth(alloc, h.depths)?;
    for depth in 0..layers.count() {
        mark_depth(alloc, h, &layers, roots, depth, &mut marks)?;
    }
    Ok(marks)
}

fn is_concrete(decl: &Decl) -> bool
    ensures { IsTrue result ↔ ((decl.now.is_interface ≡ false) × (decl.now.is_abstract ≡ false)) }
{
    !decl.is_interface && !decl.is_abstract
}

/// The line of the declaration, where it is a class that isn't abstract and one of its slots has an abstract body
/// (ECMA-335, II.10.1.4, II.15.4.2.4). `marks` is what [`abstract_bodies`] gives.
pub fn abstract_in_concrete(
    h: &Hierarchy<'_>,
    marks: &[bool],
    place: usize,
    decl: &Decl,
) -> Option<u32>
    requires there { slice_get h.now.decls.now place ≡ Some decl.now }
    requires marks { Marks h.now.decls.now marks.now }
    ensures { IsLeast (ShowsAbstract h.now.decls.now place decl.now) result }
{
    let shows = is_concrete(decl) && marks[place];
    shown(shows, decl.line)
}
