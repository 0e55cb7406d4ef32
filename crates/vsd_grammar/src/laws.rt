//! The laws that hold of every grammar. Each is a function that does nothing and ensures its law.
ghost use Rattle.vsd_grammar.specs.Grammar.{G, Decides};
ghost use Rattle.vsd_grammar.specs.Productions.{name, numbered_name, plain_words, spelled_number};
ghost use Rattle.vsd_grammar.specs.Words.{WordsHaveKeys, KeysAreOwn};
ghost use Rattle.vsd_grammar.specs.Skipping.{SkipsPairs, skip};
ghost use Rattle.vsd_grammar.specs.Laws.{IsSound, IsComplete, KeepsReading, KeepsRefusal, KeepsCauses, KeepsCounts, StandsInList, IsReader, GoesForward, IsDead, IsUnambiguous};
ghost use Rattle.vsd_grammar.specs.declared.token_class.TokenClass.{TokenClass};
ghost use Rattle.std.specs.Prelude.{ℕ, Bool};

/// Each word of the grammar has its key, and no other word has that.
pub fn words_have_keys()
    ensures each { WordsHaveKeys }
    ensures own { KeysAreOwn }
{}

/// Names, plain words, numbers and what is passed over are read in one way, whatever follows them.
pub fn names_are_decided()
    ensures names { (F : TokenClass → Bool) → Decides _ name F }
    ensures numbered { (F : TokenClass → Bool) → Decides _ numbered_name F }
    ensures words { (F : TokenClass → Bool) → Decides _ plain_words F }
    ensures numbers { (low high most : ℕ) (F : TokenClass → Bool) → Decides _ (spelled_number low high most) F }
    ensures skipped { (stops : TokenClass → Bool) (F : TokenClass → Bool) → Decides _ (skip stops) F }
{}

/// What is passed over are tokens with their braces in pairs, up to the first token that ends it, and nothing else is.
pub fn skips_pairs()
    ensures { SkipsPairs }
{}

/// A grammar of which the laws speak: its production, and the tokens that may stand after it.
pub trait Production {
    ghost Value: { Type 0 };

    ghost production: { G Value };

    ghost follow: { TokenClass → Bool };
}

/// What is read is allowed.
pub fn sound<P: Production>()
    ensures { IsSound P.Value P.production }
{}

/// What is allowed is read, if what may follow a list never goes on with it, and its tests turn no item away.
pub fn complete<P: Production>()
    ensures { Decides P.Value P.production P.follow → IsComplete P.Value P.production P.follow }
{}

/// A refusal stands at no token after the one that decided it, and that one is in the list, or its end.
pub fn stands_in_list<P: Production>()
    ensures { StandsInList P.Value P.production }
{}

/// If each cause in a production passes a test, so does the cause of each refusal.
pub fn keeps_causes<P: Production>()
    ensures { KeepsCauses P.Value P.production }
{}

/// What each step of the counts keeps to, the whole of a production keeps to.
pub fn keeps_counts<P: Production>()
    ensures { KeepsCounts P.Value P.production }
{}

/// What a function that reads a production answers is allowed, whatever is allowed is what it answers, and after its
/// refusal nothing is allowed that goes on alike. The lemmas of it serve productions with parameters.
pub fn reads_well<P: Production>()
    ensures { Decides P.Value P.production P.follow → IsReader P.Value P.production P.follow }
{}

/// A reading goes forward within its list.
pub fn goes_forward<P: Production>()
    ensures { GoesForward P.Value P.production }
{}

/// A reading looks at no token beyond the one where it ends.
pub fn keeps_reading<P: Production>()
    ensures { KeepsReading P.Value P.production }
{}

/// A refusal looks at no token beyond the one that decided it.
pub fn keeps_refusal<P: Production>()
    ensures { KeepsRefusal P.Value P.production }
{}

/// After a refusal nothing goes on that is allowed.
pub fn dead<P: Production>()
    ensures { Decides P.Value P.production P.follow → IsDead P.Value P.production P.follow }
{}

/// At most one value is allowed.
pub fn unambiguous<P: Production>()
    ensures { Decides P.Value P.production P.follow → IsUnambiguous P.Value P.production P.follow }
{}
