//! What the definitions come to.
ghost use Rattle.std.specs.Prelude.{◌≡◌, List};
ghost use Rattle.vsd_terms.specs.declared.term.Term.{Term};
ghost use Rattle.vsd_ast.specs.declared.declarations.Decl.{Decl};
ghost use Rattle.vsd_interfaces.specs.Interfaces.{AreInterfaces};
ghost use Rattle.vsd_interfaces.specs.Reached.{ListsReached};

/// The interfaces of a class are those that it reaches by naming and requiring, each once.
pub fn interfaces_law()
    ensures reached { ListsReached }
    ensures unique { (ds : List Decl) (t : Term) (xs ys : List Term) → AreInterfaces ds t xs → AreInterfaces ds t ys → xs ≡ ys }
{}
