//! What else the definitions come to.
ghost use Rattle.std.specs.Prelude.{ℕ, ◌<◌, ◌↔◌, List};
ghost use Rattle.vsd_terms.specs.declared.term.Term.{Term};
ghost use Rattle.vsd_ast.specs.Hierarchy.{number_for};
ghost use Rattle.vsd_ast.specs.Lookup.{Head, head_of};
ghost use Rattle.vsd_ast.specs.declared.declarations.Decl.{Decl};
ghost use Rattle.vsd_lift.specs.Settled.{IsSettled};
ghost use Rattle.vsd_ways.specs.Leads.{HasInterface, LeadsTo};
ghost use Rattle.vsd_ways.specs.Listed.{StandsIn, StandsListed, tree};

/// What a class has is what stands in the list of its interfaces: those that it and the classes above it name, each
/// followed depth first by those that it requires (ECMA-335, II.12.1). The list is cut off at a height that is greater
/// than every depth, which leaves nothing out: an interface leads to what stands in its own part of the list.
pub fn interfaces_are_listed()
    ensures part { (ds : List Decl) (places depths : List ℕ) → IsSettled ds places depths →
        (height : ℕ) (u v : Term) → number_for ds depths (head_of u) < height →
        StandsIn (tree ds height u) v ↔ LeadsTo ds u v }
    ensures class { (ds : List Decl) (places depths : List ℕ) → IsSettled ds places depths →
        (height : ℕ) → ((h : Head) → number_for ds depths h < height) → (chain : List ℕ) (owner : Term) →
        HasInterface ds chain owner ↔ StandsListed ds height chain owner }
{}
