//! What each override implements, in a row for each declaration.
ghost use Rattle.std.specs.Prelude.{◌≡◌, ◌<◌, length, slice_get, Some, IfOk, IsTrue};
ghost use Rattle.std.specs.HashMap.{get};
ghost use Rattle.vsd_ast.specs.Lookup.{is_lawful};
ghost use Rattle.vsd_ast.specs.WellFormed.{IsOverride};
ghost use Rattle.vsd_ast.specs.declared.declarations.Decl.{Decl};
ghost use Rattle.vsd_lift.specs.Settled.{IsSettled};
ghost use Rattle.vsd_overrides.specs.Known.{AreKnown, Knows, KnowsEach, same_question};
ghost use Rattle.vsd_overrides.specs.Targets.{AreLawfulOwners, AreTargets, IsTarget, TabulatesTargets};

use crate::Target;
use crate::asked::Question;
use crate::meaning::meaning;
use crate::owners::{is_had, owners_had};
use sqlite_items::Items;
use std::alloc::{AllocError, Global};
use std::collections::HashMap;
use vsd_ast::{Decl, Override};
use vsd_lift::Hierarchy;

// What an override of the declaration at `at` implements.
fn target_of<'a>(
    h: &Hierarchy<'_>,
    at: usize,
    decl: &Decl,
    o: &'a Override,
    known: &HashMap<Question<'a>, bool>,
) -> Option<Target>
    requires settled { IsSettled h.now.decls.now h.now.places.now h.now.depths.now }
    requires there { slice_get h.now.decls.now at ≡ Some decl.now }
    requires written { IsOverride (length h.now.places.now) (length decl.now.params) (length decl.now.methods) o.now }
    requires lawful { IsTrue (is_lawful h.now.decls.now o.now.owner) }
    requires known { AreKnown h.now.decls.now (get same_question known.now) }
    requires told { Knows (get same_question known.now) at o.now.owner }
    ensures { IsTarget h.now.decls.now at decl.now o.now result }
{
    let Some(target) = meaning(h, decl, o) else {
        return None;
    };
    let question = Question {
        class: at,
        owner: &o.owner,
    };
    if !is_had(known, question) {
        return None;
    }
    Some(target)
}

// What each override of one declaration implements.
fn target_row<'a>(
    alloc: Global,
    h: &Hierarchy<'a>,
    at: usize,
    known: &HashMap<Question<'a>, bool>,
) -> Result<Items<Option<Target>>, AllocError>
    requires settled { IsSettled h.now.decls.now h.now.places.now h.now.depths.now }
    requires within { at < length h.now.decls.now }
    requires owners { AreLawfulOwners h.now.decls.now }
    requires known { AreKnown h.now.decls.now (get same_question known.now) }
    requires told { (x : Decl) → slice_get h.now.decls.now at ≡ Some x →
        KnowsEach (get same_question known.now) at x.overrides }
    ensures { IfOk result (λ row. (x : Decl) → slice_get h.now.decls.now at ≡ Some x →
        AreTargets h.now.decls.now at x row) }
{
    let decl = &h.decls[at];
    let overrides = decl.overrides.as_slice();
    let mut row = Items::new(alloc);
    for i in 0..overrides.len() {
        let target = target_of(h, at, decl, &overrides[i], known);
        row.push(target)?;
    }
    Ok(row)
}

/// What each override implements, in a row for each declaration (ECMA-335, II.10.3.2, II.12.2). None where it implements
/// nothing.
///
/// The owner has to be an interface that the class or a class above it names, or that such an interface requires, as a
/// term in the parameters of the class. In the short form an override means the first of the owner's methods that has
/// its name and, at the owner's arguments, the signature of the implementing method; in the long form the one that has
/// the signature given.
pub fn targets(alloc: Global, h: &Hierarchy<'_>) -> Result<Items<Items<Option<Target>>>, AllocError>
    requires settled { IsSettled h.now.decls.now h.now.places.now h.now.depths.now }
    requires owners { AreLawfulOwners h.now.decls.now }
    ensures { IfOk result (TabulatesTargets h.now.decls.now) }
{
    let known = owners_had(alloc, h)?;
    let mut rows = Items::new(alloc);
    for at in 0..h.decls.len() {
        let row = target_row(alloc, h, at, &known)?;
        rows.push(row)?;
    }
    Ok(rows)
}
