//! What else the definitions come to.
ghost use Rattle.std.specs.Prelude.{◌≡◌, ℕ, ◌↔◌, true, List};
ghost use Rattle.vsd_terms.specs.declared.term.Term.{Term};
ghost use Rattle.vsd_ast.specs.declared.declarations.Decl.{Decl};
ghost use Rattle.vsd_ast.specs.declared.declarations.Param.{Param as TypeParam};
ghost use Rattle.vsd_ast.specs.declared.declarations.Sign.{Sign};
ghost use Rattle.vsd_roots.specs.Bodies.{IsBody};
ghost use Rattle.vsd_roots.specs.Slots.{IsRoot, Reaches};
ghost use Rattle.vsd_roots.specs.Variance.{inside, is_valid, turned};
ghost use Rattle.vsd_roots.specs.declared.place.Place.{Place};
ghost use Rattle.vsd_roots.specs.declared.variance.Position.{Position};
ghost use Rattle.vsd_roots.specs.declared.variance.Position.TheVariants.{Invariant};

/// A method has one root, and a slot has one body in a class. Two methods have one root exactly where overrides, each a
/// step to the nearest match above, lead both to one method (ECMA-335, II.9.9, II.10.3.1).
pub fn slots_law()
    ensures one_root { (ds : List Decl) (p r s : Place) → IsRoot ds p r → IsRoot ds p s → r ≡ s }
    ensures shared_root { (ds : List Decl) (p q r s : Place) → IsRoot ds p r → IsRoot ds q s →
        (r ≡ s) ↔ ((c : Place) × (Reaches ds p c × Reaches ds q c)) }
    ensures one_body { (ds : List Decl) (chain : List ℕ) (root : Place) (k l : ℕ) (p q : Place) →
        IsBody ds chain root k p → IsBody ds chain root l q → p ≡ q }
{}

/// A position that is turned twice is as it was, an invariant one stays so under every sign, and a term that may stand in
/// an invariant position may stand in any (ECMA-335, II.9.7).
pub fn positions_law()
    ensures turned_twice { (place : Position) → turned (turned place) ≡ place }
    ensures invariant_stays { (sign : Sign) → inside sign Invariant ≡ Invariant }
    ensures invariant_anywhere { (ds : List Decl) (own : List TypeParam) (t : Term) (place : Position) →
        is_valid ds own t Invariant ≡ true → is_valid ds own t place ≡ true }
{}
