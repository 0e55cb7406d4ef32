//! Why declarations are refused.
ghost use Rattle.std.specs.Prelude.{◌≡◌, IsTrue, Some};
ghost use Rattle.vsd_grammar.specs.Place.{line_of};
ghost use Rattle.vsd_decl_syntax.specs.Causes.{is_decl_cause};
ghost use Rattle.vsd_decls.specs.Refusals.{refusal_of};

use std::alloc::AllocError;
use thiserror::Error;
use vsd_grammar::{Cause, Counted, Form, SyntaxError, line_of};
use vsd_text::Token;

/// Why declarations are refused: for the first token, with its line, at which something shows that isn't allowed. The
/// line of the end is that of the last token, or 1 without tokens.
#[derive(Clone, Copy, Debug, PartialEq, Eq, Drop, Error)]
pub enum DeclError {
    /// The grammar doesn't go on with this token, or with the end.
    #[error("line {line}: unexpected")]
    Unexpected { line: u32 },
    /// A form of ilasm that is recognised and not supported; its text is that of [`form_text`](crate::form_text).
    #[error("line {line}: unsupported: {what:?}")]
    Unsupported { line: u32, what: Form },
    /// The first token of one more than may be there; its text is that of [`counted_text`](crate::counted_text).
    #[error("line {line}: too many: {what:?}")]
    TooMany { line: u32, what: Counted },
    /// The token that opens the 17th level of a written term, or names its 65th node.
    #[error("line {line}: too deep")]
    TooDeep { line: u32 },
    /// There is no memory.
    #[error("out of memory")]
    Memory,
}

impl From<AllocError> for DeclError {
    ghost use Rattle.std.specs.Prelude.{◌≡◌};
    ghost use Rattle.vsd_decls.specs.declared.errors.DeclError.TheVariants.{Memory};

    ghost from_gives = { λ _ e. e ≡ Memory };

    fn from(_error: AllocError) -> DeclError {
        DeclError::Memory
    }
}

/// The refusal for a cause that declarations may have, at a line.
fn at_line(line: u32, cause: Cause) -> DeclError
    requires { IsTrue (is_decl_cause cause) }
    ensures { refusal_of result ≡ Some (line, cause) }
{
    match cause {
        Cause::Unexpected => DeclError::Unexpected { line },
        Cause::Unsupported(what) => DeclError::Unsupported { line, what },
        Cause::TooMany(what) => DeclError::TooMany { line, what },
        Cause::TooDeep => DeclError::TooDeep { line },
        _ => unreachable!(),
    }
}

/// The refusal of a reading, at the line of its token.
pub fn error_of(tokens: &[Token], refused: SyntaxError) -> DeclError
    requires { IsTrue (is_decl_cause refused.cause) }
    ensures { refusal_of result ≡ Some (line_of tokens.now refused.at, refused.cause) }
{
    at_line(line_of(tokens, refused.at), refused.cause)
}
