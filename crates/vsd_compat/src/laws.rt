//! What the definition of compatibility comes to.
ghost use Rattle.std.specs.Prelude.{◌≡◌, Bool, List, true};
ghost use Rattle.vsd_terms.specs.declared.term.Term.{Term};
ghost use Rattle.vsd_ast.specs.declared.declarations.Decl.{Decl};
ghost use Rattle.vsd_ast.specs.declared.declarations.Decls.{Decls as Declarations};
ghost use Rattle.vsd_check.specs.Conditions.{AreLawful};
ghost use Rattle.vsd_types.specs.Types.{IsClosedType};
ghost use Rattle.vsd_compat.specs.Compatibility.{IsCompatible};
ghost use Rattle.vsd_compat.specs.Rules.{KeepsRules};

/// Compatibility in other words: it keeps the rules of ECMA-335, I.8.7, and it is the least relation that does. So it
/// relates a type to itself and to `object`, it follows bases and named interfaces, variance goes the way that its sign
/// says and only between reference types, and a question that leads back only to itself is answered with no.
pub fn compatibility_law()
    ensures keeps { (ds : List Decl) → KeepsRules ds (IsCompatible ds) }
    ensures least { (ds : List Decl) (related : Term → Term → Bool) → KeepsRules ds (λ t u. related t u ≡ true) → (t u : Term) → IsCompatible ds t u → related t u ≡ true }
{}

/// Over lawful declarations a closed type that is compatible with a second, and the second with a third, is compatible
/// with the third (ECMA-335, I.8.7). It rests on the places where a type may stand in an interface (II.9.7).
pub fn compatibility_is_transitive()
    ensures { (d : Declarations) → AreLawful d → (t u w : Term) → IsClosedType d.list t → IsClosedType d.list u → IsClosedType d.list w →
        IsCompatible d.list t u → IsCompatible d.list u w → IsCompatible d.list t w }
{}
