//! What the definition of the token list comes to.
ghost use Rattle.std.specs.Prelude.{◌≡◌, ◌<◌, ◌≤◌, ◌+◌, ◌↔◌, ◌⊎◌, ℕ, List, Ok, Err, take, length, All};
ghost use Rattle.vsd_text.specs.declared.tokens.Token.{Token};
ghost use Rattle.vsd_text.specs.declared.tokens.LexError.{LexError};
ghost use Rattle.vsd_text.specs.declared.tokens.LexError.TheVariants.{BadByte, OpenComment, OpenQuote, TooLong, Memory};
ghost use Rattle.vsd_text.specs.Tokens.{tokens_of, line_feeds, text_limit};
ghost use Rattle.vsd_text.specs.Spelling.{IsTokenList, HasRefusal, CanBegin, HasBadByte, HasBadLineFeed, body_of};

/// The token list of a text, in other words. After its byte order mark the text is gaps and lexemes in
/// turn: separators, comments and tokens, each token the longest at its place. A token's line is one more
/// than the line feeds before it. A text that is not too long is refused exactly where such parts lead to
/// a place at which nothing begins: a bad byte, one in a Quoted token, an open comment or an open quote.
/// A byte is bad exactly where it is the first one up to which, with itself, no parts at all can begin, and
/// no line feed. Where a text ends in an open comment or an open quote, parts can begin with all of it;
/// where a line feed leaves a quote open, that is the first byte with which none can.
pub fn token_list_law()
    ensures tokens { (text : List ℕ) (tokens : List Token) →
        (tokens_of text ≡ Ok tokens) ↔ ((length text ≤ text_limit) × IsTokenList text tokens) }
    ensures lines { (text : List ℕ) (tokens : List Token) → tokens_of text ≡ Ok tokens →
        All (λ token. token.line ≡ 1 + line_feeds (take token.start text)) tokens }
    ensures refused { (text : List ℕ) (refusal : LexError) → length text ≤ text_limit →
        (tokens_of text ≡ Err refusal) ↔ HasRefusal text refusal }
    ensures bad_byte { (text : List ℕ) (line : ℕ) → length text ≤ text_limit →
        (tokens_of text ≡ Err (BadByte line)) ↔ HasBadByte text line }
    ensures open_comment { (text : List ℕ) (line : ℕ) → length text ≤ text_limit →
        tokens_of text ≡ Err (OpenComment line) → CanBegin (body_of text) }
    ensures open_quote { (text : List ℕ) (line : ℕ) → length text ≤ text_limit →
        tokens_of text ≡ Err (OpenQuote line) → CanBegin (body_of text) ⊎ HasBadLineFeed text }
    ensures too_long { (text : List ℕ) → (tokens_of text ≡ Err TooLong) ↔ (text_limit < length text) }
    ensures no_other { (text : List ℕ) → tokens_of text ≡ Err Memory → ⊥ }
{}
