//! What a list is closed over, as contracts see it.
ghost use Rattle.std.specs.Prelude.{◌≡◌};
ghost use Rattle.std.specs.Borrow.{ftrue};
ghost use Rattle.std.specs.Coded.{codes};
ghost use Rattle.vsd_ast.specs.declared.declarations.Decls.{Decls};
ghost use Rattle.vsd_terms.specs.contracts.term.Term as term;

use std::marker::Model;

/// The declarations that types were closed over, for contracts alone: it has no bytes.
#[derive(Debug, Drop)]
pub(crate) struct Origin {
    pub(crate) ghost decls: { Decls } by { Prim.hlevel (codes, term.the_row.coded) },
}

impl Model for Origin {
    ghost also_owns = { λ _. ftrue };
}

impl Origin {
    /// An origin in these declarations. The caller's proof picks them, by what `_from` is.
    pub(crate) fn told<T>(_from: &T) -> Origin
        ghost decls: { Decls }
        ensures { result.decls ≡ decls }
    {
        Origin {}
    }
}
