//! The third pass: variance, what methods override, and what overrides implement.
ghost use Rattle.std.specs.Prelude.{◌≡◌, IfErr, IfOk, IfSome, OnOk};
ghost use Rattle.vsd_least.specs.Least.{IsLeast};
ghost use Rattle.vsd_lift.specs.Settled.{IsSettled};
ghost use Rattle.vsd_overrides.specs.Targets.{TabulatesTargets};
ghost use Rattle.vsd_roots.specs.Bodies.{Marks};
ghost use Rattle.vsd_roots.specs.Methods.{Tabulates};
ghost use Rattle.vsd_roots.specs.Slots.{IsOverridden, IsRoot};
ghost use Rattle.vsd_check.specs.Conditions.{MisplacedAt, FinalOverriddenAt, AbstractAt, IsEarliest, NoneIn, ShowsIn};
ghost use Rattle.vsd_check.specs.Earliest.{IsFirst};
ghost use Rattle.vsd_check.specs.Refusals.{refusal_of};

use crate::earliest::sooner;
use crate::implementing::implementing_of;
use crate::refusal::{Cause, CheckError, Shown, refusal};
use sqlite_items::Items;
use std::alloc::{AllocError, Global};
use vsd_ast::Decls;
use vsd_least::earlier;
use vsd_lift::Hierarchy;
use vsd_overrides::{Target, targets};
use vsd_roots::{
    Place, abstract_bodies, abstract_in_concrete, misplaced_variance, overridden, overrides_final,
    roots,
};

// What the third pass looks at.
#[derive(Drop)]
struct Tables {
    overridden: Items<Items<Option<Place>>>,
    marks: Vec<bool>,
    targets: Items<Items<Option<Target>>>,
}

/// The first line of each condition on variance and on the methods of classes.
#[derive(Clone, Copy)]
struct Overriding {
    misplaced: Option<u32>,
    last: Option<u32>,
    left: Option<u32>,
}

fn overriding_of(
    decls: &Decls,
    h: &Hierarchy<'_>,
    overridden: &[Items<Option<Place>>],
    marks: &[bool],
) -> Overriding
    requires scope { h.now.decls.now ≡ decls.now.list }
    requires settled { IsSettled h.now.decls.now h.now.places.now h.now.depths.now }
    requires overridden { Tabulates h.now.decls.now (IsOverridden h.now.decls.now) overridden.now }
    requires marks { Marks h.now.decls.now marks.now }
    ensures misplaced { IsLeast (MisplacedAt decls.now) result.misplaced }
    ensures last { IsLeast (FinalOverriddenAt decls.now) result.last }
    ensures left { IsLeast (AbstractAt decls.now) result.left }
{
    let mut found = Overriding {
        misplaced: None,
        last: None,
        left: None,
    };
    for (place, decl) in h.decls.iter().enumerate() {
        let misplaced_here = misplaced_variance(h, decl);
        let misplaced = earlier(found.misplaced, misplaced_here);
        let last_here = overrides_final(h, overridden, place, decl);
        let last = earlier(found.last, last_here);
        let left_here = abstract_in_concrete(h, marks, place, decl);
        let left = earlier(found.left, left_here);
        found = Overriding {
            misplaced,
            last,
            left,
        };
    }
    found
}

fn third_shown(
    alloc: Global,
    decls: &Decls,
    h: &Hierarchy<'_>,
    tables: &Tables,
) -> Result<Option<Shown>, AllocError>
    requires scope { h.now.decls.now ≡ decls.now.list }
    requires settled { IsSettled h.now.decls.now h.now.places.now h.now.depths.now }
    requires overridden { Tabulates h.now.decls.now (IsOverridden h.now.decls.now) tables.now.overridden }
    requires marks { Marks h.now.decls.now tables.now.marks.items }
    requires targets { TabulatesTargets h.now.decls.now tables.now.targets }
    ensures { IfOk result (IsFirst (ShowsIn decls.now 3)) }
{
    let found = overriding_of(decls, h, tables.overridden.as_slice(), &tables.marks);
    let overrides = implementing_of(alloc, decls, h.decls, tables.targets.as_slice())?;
    let misplaced = sooner(None, Cause::VarianceMisplaced, found.misplaced);
    let last = sooner(misplaced, Cause::OverridesFinal, found.last);
    let left = sooner(last, Cause::AbstractInConcrete, found.left);
    let unknown = sooner(left, Cause::OverrideUnknown, overrides.unknown);
    Ok(sooner(unknown, Cause::OverrideTwice, overrides.repeated))
}

/// What is found of the methods and overrides of lawful declarations.
#[derive(Drop)]
pub(crate) struct Methods {
    pub roots: Items<Items<Place>>,
    pub targets: Items<Items<Option<Target>>>,
}

/// The roots of the methods, and what the overrides implement, of declarations that show no cause of the third pass.
pub(crate) fn methods_of(
    alloc: Global,
    decls: &Decls,
    h: &Hierarchy<'_>,
) -> Result<Methods, CheckError>
    requires scope { h.now.decls.now ≡ decls.now.list }
    requires settled { IsSettled h.now.decls.now h.now.places.now h.now.depths.now }
    requires first { NoneIn decls.now 1 }
    requires second { NoneIn decls.now 2 }
    ensures third { OnOk result (NoneIn decls.now 3) }
    ensures roots { IfOk result (λ found. Tabulates h.now.decls.now (IsRoot h.now.decls.now) found.roots) }
    ensures targets { IfOk result (λ found. TabulatesTargets h.now.decls.now found.targets) }
    ensures refused { IfErr result (λ e. IfSome (refusal_of e) (IsEarliest decls.now)) }
{
    let overridden = overridden(alloc, h)?;
    let roots = roots(alloc, h, overridden.as_slice())?;
    let marks = abstract_bodies(alloc, h, roots.as_slice())?;
    let targets = targets(alloc, h)?;
    let tables = Tables {
        overridden,
        marks,
        targets,
    };
    if let Some(shown) = third_shown(alloc, decls, h, &tables)? {
        return Err(refusal(shown));
    }
    Ok(Methods {
        roots,
        targets: tables.targets,
    })
}
