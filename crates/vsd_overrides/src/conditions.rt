//! Overrides that implement nothing, and those that repeat an earlier one.
ghost use Rattle.std.specs.Prelude.{◌≡◌, IfOk};
ghost use Rattle.vsd_ast.specs.declared.declarations.Decl.{Decl};
ghost use Rattle.vsd_least.specs.Least.{IsLeast};
ghost use Rattle.vsd_overrides.specs.Conditions.{ShowsRepeatedOverride, ShowsUnknownOverride};
ghost use Rattle.vsd_overrides.specs.Targets.{AreTargets};

use crate::Target;
use std::alloc::{AllocError, Global};
use std::collections::HashSet;
use vsd_ast::Decl;
use vsd_least::{earlier, shown};
use vsd_terms::Term;

/// The least line of an override of the declaration that implements nothing (ECMA-335, II.10.3.2, II.12.2). `row` has
/// what each of its overrides implements.
pub fn unknown_override(
    decls: &[Decl],
    place: usize,
    decl: &Decl,
    row: &[Option<Target>],
) -> Option<u32>
    requires { AreTargets decls.now place decl.now row.now }
    ensures { IsLeast (ShowsUnknownOverride decls.now place decl.now) result }
{
    let overrides = decl.overrides.as_slice();
    let mut found = None;
    for i in 0..overrides.len() {
        found = earlier(found, shown(row[i].is_none(), overrides[i].line));
    }
    found
}

// What overrides of one declaration have to share.
#[derive(Clone, Copy, PartialEq, Eq, Hash)]
struct Key<'a> {
    owner: &'a Term,
    slot: u16,
}

/// The least line of an override of the declaration that implements the same method of the same owner as an earlier one.
/// `row` has what each of its overrides implements. The error is want of memory.
pub fn repeated_override(
    alloc: Global,
    decls: &[Decl],
    place: usize,
    decl: &Decl,
    row: &[Option<Target>],
) -> Result<Option<u32>, AllocError>
    requires { AreTargets decls.now place decl.now row.now }
    ensures { IfOk result (IsLeast (ShowsRepeatedOverride decls.now place decl.now)) }
{
    let overrides = decl.overrides.as_slice();
    let mut seen = HashSet::new(alloc);
    let mut found = None;
    for i in 0..overrides.len() {
        let Some(target) = row[i] else {
            continue;
        };
        let new = seen.insert(Key {
            owner: &overrides[i].owner,
            slot: target.slot,
        })?;
        found = earlier(found, shown(!new, overrides[i].line));
    }
    Ok(found)
}
