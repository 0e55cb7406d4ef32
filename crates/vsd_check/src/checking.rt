//! Whether declarations are lawful.
ghost use Rattle.std.specs.Prelude.{◌≡◌, IfErr, IfOk, IfSome, OnOk};
ghost use Rattle.vsd_ast.specs.Hierarchy.{IsHierarchy};
ghost use Rattle.vsd_ast.specs.WellFormed.{AreWellFormed};
ghost use Rattle.vsd_lawful.specs.Index.{IsIndex};
ghost use Rattle.vsd_overrides.specs.Targets.{TabulatesTargets};
ghost use Rattle.vsd_roots.specs.Methods.{Tabulates};
ghost use Rattle.vsd_roots.specs.Slots.{IsRoot};
ghost use Rattle.vsd_check.specs.Checked.{decls_of};
ghost use Rattle.vsd_check.specs.Conditions.{AreLawful, IsEarliest};
ghost use Rattle.vsd_check.specs.Refusals.{refusal_of};

use crate::Checked;
use crate::overriding::{Methods, methods_of};
use crate::refusal::CheckError;
use crate::settling::settle;
use sqlite_items::Items;
use std::alloc::Global;
use vsd_ast::Decls;
use vsd_lawful::{Scope, index};
use vsd_lift::Hierarchy;

// What is found of lawful declarations.
#[derive(Drop)]
struct Found {
    places: Vec<u16>,
    depths: Vec<u16>,
    methods: Methods,
}

fn examine(alloc: Global, decls: &Decls) -> Result<Found, CheckError>
    requires { AreWellFormed decls.now }
    ensures lawful { OnOk result (AreLawful decls.now) }
    ensures places { IfOk result (λ found. IsIndex decls.now.list found.places.items) }
    ensures hierarchy { IfOk result (λ found. IsHierarchy decls.now.list found.depths.items) }
    ensures roots { IfOk result (λ found. Tabulates decls.now.list (IsRoot decls.now.list) found.methods.roots) }
    ensures targets { IfOk result (λ found. TabulatesTargets decls.now.list found.methods.targets) }
    ensures refused { IfErr result (λ e. IfSome (refusal_of e) (IsEarliest decls.now)) }
{
    let places = index(alloc, decls)?;
    let list = decls.list.as_slice();
    let depths = settle(
        alloc,
        decls,
        &Scope {
            list,
            places: &places,
        },
    )?;
    let h = Hierarchy {
        decls: list,
        places: &places,
        depths: &depths,
    };
    let methods = methods_of(alloc, decls, &h)?;
    Ok(Found {
        places,
        depths,
        methods,
    })
}

/// Whether declarations are lawful, and what lawful ones tell.
///
/// A refusal is the first of what shows, in the order that [`CheckError`] tells, and `Memory` is want of memory. Either
/// lets go of the declarations.
pub fn check(alloc: Global, decls: Decls) -> Result<Checked, CheckError>
    // Numbers are in range, lists within the limits, and types of a form that the grammar has at their place.
    requires { AreWellFormed decls }
    ensures given { IfOk result (λ checked. decls_of checked ≡ decls) }
    ensures lawful { OnOk result (AreLawful decls) }
    ensures refused { IfErr result (λ e. IfSome (refusal_of e) (IsEarliest decls)) }
{
    let found = examine(alloc, &decls)?;
    Ok(Checked {
        decls,
        places: Items::from_vec(found.places),
        depths: Items::from_vec(found.depths),
        roots: found.methods.roots,
        targets: found.methods.targets,
    })
}
