//! The first two passes, and the depths that they leave.
ghost use Rattle.std.specs.Prelude.{◌≡◌, IfOk, IfErr, IfSome, OnOk};
ghost use Rattle.vsd_ast.specs.Hierarchy.{AreDepths, IsHierarchy};
ghost use Rattle.vsd_ast.specs.WellFormed.{AreWellFormed};
ghost use Rattle.vsd_check.specs.Conditions.{IsEarliest, NoneIn, ShowsIn};
ghost use Rattle.vsd_check.specs.Earliest.{IsFirst};
ghost use Rattle.vsd_check.specs.Refusals.{refusal_of};

use crate::earliest::sooner;
use crate::lawful::first_pass;
use crate::refusal::{Cause, CheckError, Shown, refusal};
use crate::shape::misfits_of;
use std::alloc::{AllocError, Global};
use vsd_ast::Decls;
use vsd_hierarchy::{depths_of, first_cycle};
use vsd_lawful::Scope;

fn first_shown(alloc: Global, decls: &Decls, scope: &Scope) -> Result<Option<Shown>, AllocError>
    requires well_formed { AreWellFormed decls.now }
    requires scope { scope.now.list.now ≡ decls.now.list }
    ensures { IfOk result (IsFirst (ShowsIn decls.now 1)) }
{
    let found = first_pass(alloc, decls, scope)?;
    let twice = sooner(None, Cause::Twice, found.twice);
    let unknown = sooner(twice, Cause::UnknownType, found.unknown);
    let arity = sooner(unknown, Cause::Arity, found.arity);
    Ok(sooner(arity, Cause::VariantClass, found.variant))
}

fn second_shown(
    alloc: Global,
    decls: &Decls,
    scope: &Scope,
    depths: &Option<Vec<u16>>,
) -> Result<Option<Shown>, AllocError>
    requires scope { scope.now.list.now ≡ decls.now.list }
    requires depths { IfSome depths.now (λ depths. AreDepths decls.now.list depths.items) }
    ensures { IfOk result (IsFirst (ShowsIn decls.now 2)) }
{
    let line = first_cycle(alloc, scope, depths)?;
    let found = misfits_of(decls, scope);
    let cycle = sooner(None, Cause::Cycle, line);
    let base = sooner(cycle, Cause::BadBase, found.base);
    Ok(sooner(base, Cause::BadInterface, found.interface))
}

/// The depths of declarations that show no cause of the first two passes.
pub(crate) fn settle(alloc: Global, decls: &Decls, scope: &Scope) -> Result<Vec<u16>, CheckError>
    requires well_formed { AreWellFormed decls.now }
    requires scope { scope.now.list.now ≡ decls.now.list }
    ensures first { OnOk result (NoneIn decls.now 1) }
    ensures second { OnOk result (NoneIn decls.now 2) }
    ensures hierarchy { IfOk result (λ depths. IsHierarchy decls.now.list depths.items) }
    ensures refused { IfErr result (λ e. IfSome (refusal_of e) (IsEarliest decls.now)) }
{
    if let Some(shown) = first_shown(alloc, decls, scope)? {
        return Err(refusal(shown));
    }
    let depths = depths_of(alloc, scope)?;
    if let Some(shown) = second_shown(alloc, decls, scope, &depths)? {
        return Err(refusal(shown));
    }
    match depths {
        Some(depths) => Ok(depths),
        None => unreachable!(),
    }
}
