//! What holds of scripts. Each is a function that does nothing and ensures its law.
ghost use Rattle.std.specs.Prelude.{Bool};
ghost use Rattle.vsd_ast.specs.declared.declarations.Decls.{Decls};
ghost use Rattle.vsd_grammar.specs.Grammar.{Decides};
ghost use Rattle.vsd_grammar.specs.declared.token_class.TokenClass.{TokenClass};
ghost use Rattle.vsd_script.specs.Productions.{script, term_at};
ghost use Rattle.vsd_script.specs.Counting.{FindsNth, SlotsAreWritten};

/// Scripts and terms are read in one way, whatever follows them.
pub fn scripts_are_decided()
    ensures scripts { (d : Decls) (F : TokenClass → Bool) → Decides _ (script d) F }
    ensures terms { (d : Decls) (F : TokenClass → Bool) → Decides _ (term_at d) F }
{}

/// The slot of a site is that of the n-th method of the written name, in order of declaration, where n is the Number after
/// `#`, and 1 without it.
pub fn slots_are_counted()
    ensures found { FindsNth }
    ensures written { SlotsAreWritten }
{}
