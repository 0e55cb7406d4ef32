//! Why a script is refused.
ghost use Rattle.std.specs.Prelude.{◌≡◌};
ghost use Rattle.vsd_script.specs.Errors as spec;

use crate::texts::listed_text;
use thiserror::Error;
use vsd_grammar::{Cause, Listed, Stop, line_of};
use vsd_text::Token;

/// Why the tokens after the declarations are no script. Lines count from 1.
#[derive(Clone, Copy, Debug, PartialEq, Eq, Error)]
pub enum ScriptError {
    /// The grammar doesn't go on with this token, or a form of type stands here that isn't supported.
    #[error("refused {line} 20 unexpected")]
    Unexpected { line: u32 },
    /// Nothing has this name here: no declared type, no site, no host, no live variable.
    #[error("refused {line} 21 unknown name")]
    UnknownName { line: u32 },
    /// A site, a host or a live variable has this name already.
    #[error("refused {line} 22 twice")]
    Twice { line: u32 },
    /// The lane would have a 33rd live variable.
    #[error("refused {line} 23 too many live")]
    TooManyLive { line: u32 },
    /// The lanes would have a 200,001st operation.
    #[error("refused {line} 24 too many operations")]
    TooManyOps { line: u32 },
    /// One site, host or lane more than there may be; its text is that of [`listed_text`](crate::listed_text).
    #[error("refused {line} 25 too many {}", listed_text(*.what))]
    TooMany { line: u32, what: Listed },
    /// The object of a call has a type that isn't a class, or is abstract.
    #[error("refused {line} 26 not concrete")]
    NotConcrete { line: u32 },
    /// The type has no such method, or is no interface.
    #[error("refused {line} 27 unknown method")]
    UnknownMethod { line: u32 },
    /// A type has another number of arguments than its declaration has parameters.
    #[error("refused {line} 28 arity")]
    Arity { line: u32 },
    /// A term has too many levels or nodes, or repeats nest too deep.
    #[error("refused {line} 29 too deep")]
    TooDeep { line: u32 },
    /// Want of memory.
    #[error("out of memory")]
    Memory,
}

/// The refusal for this cause, at this line. Forms of types and limits of names are unexpected in a script.
fn error_of(cause: Cause, line: u32) -> ScriptError
    ensures { result ≡ spec.error_of cause line }
{
    match cause {
        Cause::Unexpected => ScriptError::Unexpected { line },
        Cause::Unsupported(_) => ScriptError::Unexpected { line },
        Cause::TooMany(_) => ScriptError::Unexpected { line },
        Cause::TooDeep => ScriptError::TooDeep { line },
        Cause::UnknownName => ScriptError::UnknownName { line },
        Cause::Twice => ScriptError::Twice { line },
        Cause::TooManyLive => ScriptError::TooManyLive { line },
        Cause::TooManyOperations => ScriptError::TooManyOps { line },
        Cause::TooManyListed(what) => ScriptError::TooMany { line, what },
        Cause::NotConcrete => ScriptError::NotConcrete { line },
        Cause::UnknownMethod => ScriptError::UnknownMethod { line },
        Cause::Arity => ScriptError::Arity { line },
    }
}

/// What a reading that stopped is refused with.
pub(crate) fn told(tokens: &[Token], stop: Stop) -> ScriptError
    ensures { result ≡ spec.told tokens.now stop }
{
    match stop {
        Stop::Memory => ScriptError::Memory,
        Stop::Refused(error) => error_of(error.cause, line_of(tokens, error.at)),
    }
}
