//! What holds of types. Each is a function that does nothing and ensures its law.
ghost use Rattle.std.specs.Prelude.{◌≡◌, Bool, Option, None};
ghost use Rattle.vsd_grammar.specs.Grammar.{Decides, Derives, tried};
ghost use Rattle.vsd_grammar.specs.Input.{Input};
ghost use Rattle.vsd_grammar.specs.declared.token_class.TokenClass.{TokenClass};
ghost use Rattle.vsd_terms.specs.declared.term.Term.{Term};
ghost use Rattle.vsd_type_syntax.specs.Types.{Rules, written, written_rest, written_open, first_cause};
ghost use Rattle.vsd_type_syntax.specs.Limits.{CountsNoNodes, KeepsLimits};

/// Types are read in one way, whatever follows them.
pub fn types_are_decided()
    ensures whole { (rules : Rules) (only_named : Bool) (F : TokenClass → Bool) → Decides _ (written rules only_named) F }
    ensures rest { (rules : Rules) (F : TokenClass → Bool) → Decides _ (written_rest rules) F }
    ensures open { (rules : Rules) (F : TokenClass → Bool) → Decides _ (written_open rules) F }
{}

/// No token that begins a type is refused by the first test of a list of types.
pub fn first_test_accepts()
    ensures { (rules : Rules) (only_named : Bool) (i : Input) (x : Term) (j : Input)
        → Derives _ (written rules only_named) i x j → tried (first_cause only_named) i ≡ None }
{}

/// A written term has at most 16 levels and 64 nodes, where the rules of its reader count no nodes.
pub fn types_keep_limits()
    ensures whole { (rules : Rules) → CountsNoNodes rules → (only_named : Bool) → KeepsLimits (written rules only_named) }
    ensures rest { (rules : Rules) → CountsNoNodes rules → KeepsLimits (written_rest rules) }
    ensures open { (rules : Rules) → CountsNoNodes rules → KeepsLimits (written_open rules) }
{}
