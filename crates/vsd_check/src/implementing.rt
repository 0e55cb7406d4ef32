//! The conditions of the third pass on overrides.
ghost use Rattle.std.specs.Prelude.{◌≡◌, IfOk};
ghost use Rattle.vsd_check.specs.Conditions.{RepeatedOverrideAt, UnknownOverrideAt};
ghost use Rattle.vsd_least.specs.Least.{IsLeast};
ghost use Rattle.vsd_overrides.specs.Targets.{TabulatesTargets};

use sqlite_items::Items;
use std::alloc::{AllocError, Global};
use vsd_ast::{Decl, Decls};
use vsd_least::earlier;
use vsd_overrides::{Target, repeated_override, unknown_override};

/// The first line of each condition on overrides.
#[derive(Clone, Copy)]
pub(crate) struct Implementing {
    pub unknown: Option<u32>,
    pub repeated: Option<u32>,
}

/// `targets` has what each override implements.
pub(crate) fn implementing_of(
    alloc: Global,
    decls: &Decls,
    list: &[Decl],
    targets: &[Items<Option<Target>>],
) -> Result<Implementing, AllocError>
    requires scope { list.now ≡ decls.now.list }
    requires targets { TabulatesTargets list.now targets.now }
    ensures unknown { IfOk result (λ found. IsLeast (UnknownOverrideAt decls.now) found.unknown) }
    ensures repeated { IfOk result (λ found. IsLeast (RepeatedOverrideAt decls.now) found.repeated) }
{
    let mut found = Implementing {
        unknown: None,
        repeated: None,
    };
    for (place, decl) in list.iter().enumerate() {
        let row = targets[place].as_slice();
        let unknown_here = unknown_override(list, place, decl, row);
        let unknown = earlier(found.unknown, unknown_here);
        let repeated_here = repeated_override(alloc, list, place, decl, row)?;
        let repeated = earlier(found.repeated, repeated_here);
        found = Implementing { unknown, repeated };
    }
    Ok(found)
}
