//! What the definitions come to.
ghost use Rattle.std.specs.Prelude.{◌≡◌, ℕ, List, Option};
ghost use Rattle.vsd_terms.specs.declared.term.Term.{Term};
ghost use Rattle.vsd_ast.specs.declared.declarations.Decl.{Decl};
ghost use Rattle.vsd_slots.specs.Implementation.{Found, IsImplementation};
ghost use Rattle.vsd_interfaces.specs.Lineage.{IsLineage, Level};
ghost use Rattle.vsd_slots.specs.Deciding.{BaseDecides, IsDeclaredAbove, NameIsNext, OverrideWins};

/// An override beats a name in the same class, and either beats what the base has; a class that neither overrides nor has
/// the interface itself leaves it to its base. What is found is declared by the class or one above it. There is one
/// lineage of a class, and so one answer.
pub fn implementation_law()
    ensures overriding { OverrideWins }
    ensures by_name { NameIsNext }
    ensures by_base { BaseDecides }
    ensures declared_above { IsDeclaredAbove }
    ensures lineage { (ds : List Decl) (t : Option Term) (xs ys : List Level) → IsLineage ds t xs → IsLineage ds t ys → xs ≡ ys }
    ensures unique { (ds : List Decl) (t i : Term) (m : ℕ) (a b : Option Found) → IsImplementation ds t i m a → IsImplementation ds t i m b → a ≡ b }
{}
