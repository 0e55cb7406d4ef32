//! What holds of declarations. Each is a function that does nothing and ensures its law.
ghost use Rattle.std.specs.Prelude.{ℕ, Bool, List};
ghost use Rattle.vsd_text.specs.declared.tokens.Token.{Token};
ghost use Rattle.vsd_ast.specs.declared.declarations.Decls.{Decls};
ghost use Rattle.vsd_ast.specs.WellFormed.{AreWellFormed};
ghost use Rattle.vsd_grammar.specs.Grammar.{Decides};
ghost use Rattle.vsd_grammar.specs.declared.token_class.TokenClass.{TokenClass};
ghost use Rattle.vsd_decls.specs.Grammar.{declarations};
ghost use Rattle.vsd_decls.specs.Declarations.{AreDeclarations};

/// Declarations are read in one way, whatever follows them.
pub fn declarations_are_decided()
    ensures { (F : TokenClass → Bool) → Decides _ declarations F }
{}

/// The declarations of a text are within the limits, their names, parameters and places are in range, and each type is of
/// a form that may stand at its place.
pub fn declarations_are_well_formed()
    ensures { (text : List ℕ) (tokens : List Token) (d : Decls) → AreDeclarations text tokens d → AreWellFormed d }
{}
