//! What definitions come to, in other words.
ghost use Rattle.std.specs.Prelude.{◌≡◌, ◌↔◌, ℕ, List, None, Some, All};
ghost use Rattle.vsd_ast.specs.declared.scripts.Op.{Op};
ghost use Rattle.vsd_answers.specs.Answers.{IsLatestLoad, latest_load, loaded};
ghost use Rattle.vsd_answers.specs.Numbering.{IsNumbering, Pair, site_tokens_of, tokens_of};

/// A variable's latest load is one that no load of the variable follows; there is none exactly where no operation loads the
/// variable.
pub fn latest_load_law()
    ensures found { (variable root : ℕ) (ops : List Op) → (latest_load variable ops ≡ Some root) ↔ IsLatestLoad variable root ops }
    ensures none { (variable : ℕ) (ops : List Op) → (latest_load variable ops ≡ None) ↔ All (λ op. loaded variable op ≡ None) ops }
{}

/// Tokens are the pairs of the sites, each once: no pair has two tokens, each site's token is its pair's, each token is some
/// site's, and a site has a token only after sites before it have had all tokens below.
pub fn numbering_law()
    ensures { (pairs : List Pair) → IsNumbering pairs (tokens_of pairs) (site_tokens_of pairs) }
{}
