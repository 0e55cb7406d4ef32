//! What each virtual method overrides.
ghost use Rattle.std.specs.Prelude.{◌≡◌, ℕ, ◌<◌, ◌↔◌, All, length, IfOk, IsTrue, MatchOption, Some};
ghost use Rattle.vsd_ast.specs.declared.declarations.Method.{Method};
ghost use Rattle.vsd_lift.specs.Chain.{IsChain};
ghost use Rattle.vsd_lift.specs.Settled.{IsSettled};
ghost use Rattle.vsd_roots.specs.Levels.{AreLevels, IsOnce, IsStart, IsUpward, ranks_from};
ghost use Rattle.vsd_roots.specs.Methods.{IsMethod, Tabulates, TabulatesRow};
ghost use Rattle.vsd_roots.specs.Order.{IsEarlier, IsLink, IsShallower};
ghost use Rattle.vsd_roots.specs.Slots.{HasMatch, IsNearest, IsOverridden, Matches};

use crate::Place;
use crate::earlier::earlier;
use crate::links::links;
use crate::rows::entry_of;
use sqlite_items::Items;
use std::alloc::{AllocError, Global};
use vsd_ast::{Access, Method};
use vsd_lift::{Hierarchy, chain, same_signature_up};

// The level of each of `count` declarations in the chain; 0 for one that isn't above the first.
fn levels(alloc: Global, count: usize, chain: &[usize]) -> Result<Vec<usize>, AllocError>
    requires declared { All (λ (n : ℕ). n < count) chain.now }
    requires once { IsOnce chain.now }
    ensures { IfOk result (λ made. AreLevels count chain.now made.items) }
{
    let mut made = vec![in alloc; 0; count]?;
    for level in 0..chain.len() {
        made[chain[level]] = level;
    }
    Ok(made)
}

// Whether the method at `at`, of the same name, is one that `method` would override.
fn is_match(
    h: &Hierarchy<'_>,
    chain: &[usize],
    levels: &[usize],
    method: &Method,
    at: Place,
) -> bool
    requires settled { IsSettled h.now.decls.now h.now.places.now h.now.depths.now }
    requires upward { IsUpward h.now.decls.now chain.now }
    requires levels { AreLevels (length h.now.decls.now) chain.now levels.now }
    requires named { (m : Method) × (IsMethod h.now.decls.now at m × (m.name ≡ method.now.name)) }
    ensures { IsTrue result ↔ (level : ℕ) × Matches h.now.decls.now chain.now method.now level at }
{
    let level = levels[at.decl as usize];
    if level == 0 {
        return false;
    }
    let other = &h.decls[at.decl as usize].methods.as_slice()[at.method as usize];
    if other.access == Access::Private {
        return false;
    }
    same_signature_up(&method.signature, h.decls, chain, level, &other.signature)
}

// Where to look after the method at `at`, which is no match. A declaration that isn't above is left at once.
fn further(
    h: &Hierarchy<'_>,
    chain: &[usize],
    levels: &[usize],
    links: &[Items<Option<Place>>],
    earlier: &[Items<Option<Place>>],
    method: &Method,
    at: Place,
) -> Option<Place>
    requires settled { IsSettled h.now.decls.now h.now.places.now h.now.depths.now }
    requires upward { IsUpward h.now.decls.now chain.now }
    requires levels { AreLevels (length h.now.decls.now) chain.now levels.now }
    requires links { Tabulates h.now.decls.now (IsLink h.now.decls.now h.now.depths.now) links.now }
    requires earlier { Tabulates h.now.decls.now (IsEarlier h.now.decls.now h.now.depths.now) earlier.now }
    requires start { IsStart h.now.decls.now h.now.depths.now chain.now method.now (Some at) }
    requires other { (level : ℕ) → Matches h.now.decls.now chain.now method.now level at → ⊥ }
    ensures start { IsStart h.now.decls.now h.now.depths.now chain.now method.now result }
    ensures lower { ranks_from h.now.depths.now result < ranks_from h.now.depths.now (Some at) }
{
    if levels[at.decl as usize] > 0 {
        return entry_of(links, at);
    }
    entry_of(earlier, at)
}

// The nearest match, among the methods of the name from `start` on.
fn nearest(
    h: &Hierarchy<'_>,
    chain: &[usize],
    levels: &[usize],
    links: &[Items<Option<Place>>],
    earlier: &[Items<Option<Place>>],
    method: &Method,
    start: Option<Place>,
) -> Option<Place>
    requires settled { IsSettled h.now.decls.now h.now.places.now h.now.depths.now }
    requires upward { IsUpward h.now.decls.now chain.now }
    requires levels { AreLevels (length h.now.decls.now) chain.now levels.now }
    requires links { Tabulates h.now.decls.now (IsLink h.now.decls.now h.now.depths.now) links.now }
    requires earlier { Tabulates h.now.decls.now (IsEarlier h.now.decls.now h.now.depths.now) earlier.now }
    requires start { IsStart h.now.decls.now h.now.depths.now chain.now method.now start }
    ensures { MatchOption result (HasMatch h.now.decls.now chain.now method.now → ⊥)
        (IsNearest h.now.decls.now chain.now method.now) }
{
    let mut next = start;
    while let Some(at) = next {
        if is_match(h, chain, levels, method, at) {
            return Some(at);
        }
        next = further(h, chain, levels, links, earlier, method, at);
    }
    None
}

// What the method at `place` overrides.
fn overridden_by(
    h: &Hierarchy<'_>,
    chain: &[usize],
    levels: &[usize],
    links: &[Items<Option<Place>>],
    earlier: &[Items<Option<Place>>],
    shallower: &[Items<Option<Place>>],
    place: Place,
    method: &Method,
) -> Option<Place>
    requires settled { IsSettled h.now.decls.now h.now.places.now h.now.depths.now }
    requires chained { IsChain h.now.decls.now place.decl chain.now }
    requires levels { AreLevels (length h.now.decls.now) chain.now levels.now }
    requires links { Tabulates h.now.decls.now (IsLink h.now.decls.now h.now.depths.now) links.now }
    requires earlier { Tabulates h.now.decls.now (IsEarlier h.now.decls.now h.now.depths.now) earlier.now }
    requires shallower { Tabulates h.now.decls.now (IsShallower h.now.decls.now h.now.depths.now) shallower.now }
    requires is { IsMethod h.now.decls.now place method.now }
    ensures { IsOverridden h.now.decls.now place result }
{
    if method.newslot {
        return None;
    }
    let start = entry_of(shallower, place);
    nearest(h, chain, levels, links, earlier, method, start)
}

// What each method of one declaration overrides.
fn overridden_row(
    alloc: Global,
    h: &Hierarchy<'_>,
    links: &[Items<Option<Place>>],
    earlier: &[Items<Option<Place>>],
    shallower: &[Items<Option<Place>>],
    at: usize,
) -> Result<Items<Option<Place>>, AllocError>
    requires settled { IsSettled h.now.decls.now h.now.places.now h.now.depths.now }
    requires within { at < length h.now.decls.now }
    requires links { Tabulates h.now.decls.now (IsLink h.now.decls.now h.now.depths.now) links.now }
    requires earlier { Tabulates h.now.decls.now (IsEarlier h.now.decls.now h.now.depths.now) earlier.now }
    requires shallower { Tabulates h.now.decls.now (IsShallower h.now.decls.now h.now.depths.now) shallower.now }
    ensures { IfOk result (TabulatesRow h.now.decls.now (IsOverridden h.now.decls.now) at) }
{
    let upward = chain(alloc, h, at)?;
    let levels = levels(alloc, h.decls.len(), upward.as_slice())?;
    let methods = h.decls[at].methods.as_slice();
    let mut row = Items::new(alloc);
    for method in 0..methods.len() {
        let place = Place {
            decl: at as u16,
            method: method as u16,
        };
        let above = overridden_by(
            h,
            upward.as_slice(),
            levels.as_slice(),
            links,
            earlier,
            shallower,
            place,
            &methods[method],
        );
        row.push(above)?;
    }
    Ok(row)
}

// The same, without a walk upward where the declaration has no method.
fn overridden_of(
    alloc: Global,
    h: &Hierarchy<'_>,
    links: &[Items<Option<Place>>],
    earlier: &[Items<Option<Place>>],
    shallower: &[Items<Option<Place>>],
    at: usize,
) -> Result<Items<Option<Place>>, AllocError>
    requires settled { IsSettled h.now.decls.now h.now.places.now h.now.depths.now }
    requires within { at < length h.now.decls.now }
    requires links { Tabulates h.now.decls.now (IsLink h.now.decls.now h.now.depths.now) links.now }
    requires earlier { Tabulates h.now.decls.now (IsEarlier h.now.decls.now h.now.depths.now) earlier.now }
    requires shallower { Tabulates h.now.decls.now (IsShallower h.now.decls.now h.now.depths.now) shallower.now }
    ensures { IfOk result (TabulatesRow h.now.decls.now (IsOverridden h.now.decls.now) at) }
{
    if h.decls[at].methods.is_empty() {
        return Ok(Items::new(alloc));
    }
    overridden_row(alloc, h, links, earlier, shallower, at)
}

/// What each virtual method overrides, if anything, in a row for each declaration (ECMA-335, II.9.9, II.10.3.1).
///
/// A method without `newslot` overrides the first method of its name and signature, that is virtual and not private, of
/// the nearest class above that has one. Signatures are compared in the parameters of the lower class. The error is want
/// of memory.
pub fn overridden(
    alloc: Global,
    h: &Hierarchy<'_>,
) -> Result<Items<Items<Option<Place>>>, AllocError>
    requires { IsSettled h.now.decls.now h.now.places.now h.now.depths.now }
    ensures { IfOk result (Tabulates h.now.decls.now (IsOverridden h.now.decls.now)) }
{
    let linked = links(alloc, h)?;
    let before_class = earlier(alloc, h, linked.before.as_slice())?;
    let mut rows = Items::new(alloc);
    for at in 0..h.decls.len() {
        let row = overridden_of(
            alloc,
            h,
            linked.before.as_slice(),
            before_class.as_slice(),
            linked.shallower.as_slice(),
            at,
        )?;
        rows.push(row)?;
    }
    Ok(rows)
}
