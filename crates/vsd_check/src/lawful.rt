//! The first pass: what stands twice, types that aren't there or are miscounted, classes with signs.
ghost use Rattle.std.specs.Prelude.{◌≡◌, IfOk};
ghost use Rattle.vsd_ast.specs.WellFormed.{AreWellFormed};
ghost use Rattle.vsd_least.specs.Least.{IsLeast};
ghost use Rattle.vsd_check.specs.Conditions.{TwiceAt, UnknownAt, ArityAt, VariantAt};

use std::alloc::{AllocError, Global};
use vsd_ast::Decls;
use vsd_lawful::{Scope, twice, types, variant_class};
use vsd_least::earlier;

/// The first line of each condition of the first pass.
#[derive(Clone, Copy)]
pub(crate) struct Lawfulness {
    pub twice: Option<u32>,
    pub unknown: Option<u32>,
    pub arity: Option<u32>,
    pub variant: Option<u32>,
}

pub(crate) fn first_pass(
    alloc: Global,
    decls: &Decls,
    scope: &Scope,
) -> Result<Lawfulness, AllocError>
    requires well_formed { AreWellFormed decls.now }
    requires scope { scope.now.list.now ≡ decls.now.list }
    ensures twice { IfOk result (λ found. IsLeast (TwiceAt decls.now) found.twice) }
    ensures unknown { IfOk result (λ found. IsLeast (UnknownAt decls.now) found.unknown) }
    ensures arity { IfOk result (λ found. IsLeast (ArityAt decls.now) found.arity) }
    ensures variant { IfOk result (λ found. IsLeast (VariantAt decls.now) found.variant) }
{
    let mut found = Lawfulness {
        twice: None,
        unknown: None,
        arity: None,
        variant: None,
    };
    for (place, decl) in scope.list.iter().enumerate() {
        let twice_here = twice(alloc, scope, &decls.names, place, decl)?;
        let twice = earlier(found.twice, twice_here);
        let lines = types(scope, decl);
        let unknown = earlier(found.unknown, lines.unknown);
        let arity = earlier(found.arity, lines.arity);
        let variant_here = variant_class(decl);
        let variant = earlier(found.variant, variant_here);
        found = Lawfulness {
            twice,
            unknown,
            arity,
            variant,
        };
    }
    Ok(found)
}
