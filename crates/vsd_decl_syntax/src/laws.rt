//! What holds of declarations. Each is a function that does nothing and ensures its law.
ghost use Rattle.std.specs.Prelude.{Bool};
ghost use Rattle.vsd_grammar.specs.Grammar.{Decides};
ghost use Rattle.vsd_grammar.specs.declared.token_class.TokenClass.{TokenClass};
ghost use Rattle.vsd_decl_syntax.specs.Classes.{class_};
ghost use Rattle.vsd_decl_syntax.specs.Members.{passed};

/// Classes and items that are passed over are read in one way, whatever follows them.
pub fn items_are_decided()
    ensures classes { (F : TokenClass → Bool) → Decides _ class_ F }
    ensures passed { (F : TokenClass → Bool) → Decides _ passed F }
{}
